// Laws of lives, for those who build on them.

ghost use Rattle.si_semantics.specs.Worked.Straight.{Cases};
ghost use Rattle.si_semantics.specs.Worked.Functions.{FunctionCases};
ghost use Rattle.si_semantics.specs.Worked.Exceptions.{ExceptionCases};
ghost use Rattle.si_semantics.specs.Worked.Finally.{FinallyCases};
ghost use Rattle.si_semantics.specs.Worked.BuiltIns.{BuiltInCases};
ghost use Rattle.si_semantics.specs.Worked.Bytes.{BytesCases};
ghost use Rattle.si_semantics.specs.Worked.Items.{ItemCases};
ghost use Rattle.si_semantics.specs.Worked.Sequences.{SequenceCases};
ghost use Rattle.si_semantics.specs.Worked.Attributes.{AttributeCases};
ghost use Rattle.si_semantics.specs.Worked.Module.{ModuleCases};
ghost use Rattle.si_semantics.specs.Worked.Tuples.{TupleCases};
ghost use Rattle.si_semantics.specs.Worked.Lists.{ListCases};
ghost use Rattle.si_semantics.specs.Worked.Targets.{TargetCases};
ghost use Rattle.si_semantics.specs.Worked.Dicts.{DictCases};
ghost use Rattle.si_semantics.specs.Worked.Scope.{ScopeCases};
ghost use Rattle.si_semantics.specs.Worked.Literals.{LiteralCases};
ghost use Rattle.si_semantics.specs.Worked.Layout.{LayoutCases};
ghost use Rattle.si_semantics.specs.Worked.Parcels.{ParcelCases};
ghost use Rattle.si_semantics.specs.Worked.Shared.{SharedCases};
ghost use Rattle.si_semantics.specs.Worked.Limits.{LimitCases};
ghost use Rattle.si_semantics.specs.Worked.Grammar.{GrammarCases};
ghost use Rattle.si_semantics.specs.Laws.{Binding, OneLife, LivesGrow, GoneStays, LeftByExceptions, KindsAbove};

/// The worked cases: what scripts print and how they end.
pub fn worked_cases()
    ensures { Cases }
{}

/// The worked cases of functions: what scripts with functions print and how they end.
pub fn worked_functions()
    ensures { FunctionCases }
{}

/// The worked cases of `raise` and `try`: what scripts print and how they end.
pub fn worked_exceptions()
    ensures { ExceptionCases }
{}

/// The worked cases of finally suites: what scripts print and how they end.
pub fn worked_finally()
    ensures { FinallyCases }
{}

/// The worked cases of `for`, ranges, kinds and `repr`: what scripts print and how they end.
pub fn worked_items()
    ensures { ItemCases }
{}

/// The worked cases of the built-ins that give a value: what scripts print and how they end.
pub fn worked_built_ins()
    ensures { BuiltInCases }
{}

/// The worked cases of `in` and of subscriptions: what scripts print and how they end.
pub fn worked_sequences()
    ensures { SequenceCases }
{}

/// The worked cases of bytes: what scripts print and how they end, and their parcels.
pub fn worked_bytes()
    ensures { BytesCases }
{}

/// The worked cases of tuples: what operations give for them.
pub fn worked_tuples()
    ensures { TupleCases }
{}

/// The worked cases of lists: what scripts print and how they end.
pub fn worked_lists()
    ensures { ListCases }
{}

/// The worked cases of assignment, of unpacking and of the targets of `for`: what scripts print and how they end.
pub fn worked_targets()
    ensures { TargetCases }
{}

/// The worked cases of dicts: what scripts print and how they end.
pub fn worked_dicts()
    ensures { DictCases }
{}

/// The worked cases of attributes, methods and imports: what scripts print and how they end.
pub fn worked_attributes()
    ensures { AttributeCases }
{}

/// The worked cases of the module `concurrent.interpreters` and of threads: what scripts ask, and what they make of answers.
pub fn worked_module()
    ensures { ModuleCases }
{}

/// The worked cases of scopes: which texts are well scoped, and which names are local.
pub fn worked_scope()
    ensures { ScopeCases }
{}

/// The worked cases of literals: their values, and which are none.
pub fn worked_literals()
    ensures { LiteralCases }
{}

/// The worked cases of the layout: what tokens lines make, and which blocks they open and close.
pub fn worked_layout()
    ensures { LayoutCases }
{}

/// The worked cases of parcels: how they are written, how they are counted, and which answers fit an action.
pub fn worked_parcels()
    ensures { ParcelCases }
{}

/// The worked cases of the shared state: what actions are answered, and the state that they leave.
pub fn worked_shared()
    ensures { SharedCases }
{}

/// The worked cases of limits: how deep expressions and statements are, how long literals, how many parameters.
pub fn worked_limits()
    ensures { LimitCases }
{}

/// The worked cases of reading: which words are the longest, and from the bytes of texts to their trees.
pub fn worked_grammar()
    ensures { GrammarCases }
{}

/// A name that was bound has its value, and every other has what it had.
pub fn binding()
    ensures { Binding }
{}

/// The same text and the same answers give one life: one that is not cut is the same where a loop may have more turns.
pub fn one_life()
    ensures { OneLife }
{}

/// More turns and more answers only add to a life: what was printed stays, with its number, and visits never fall.
pub fn lives_grow()
    ensures { LivesGrow }
{}

/// An interpreter that is gone stays gone, whatever more it is answered.
pub fn gone_stays()
    ensures { GoneStays }
{}

/// The run of a well scoped text is left by an exception, if it is left at all.
pub fn left_by_exceptions()
    ensures { LeftByExceptions }
{}

/// A clause with a kind catches that kind, and what stands under it.
pub fn kinds_above()
    ensures { KindsAbove }
{}
