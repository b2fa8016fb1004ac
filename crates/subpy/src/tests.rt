// What no clause says: worked cases by way of public calls, texts of help and refusals, readers and writers that fail.

mod commands;
mod machine;
