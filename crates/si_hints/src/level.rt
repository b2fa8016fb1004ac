// An expression as far as it was read: what stands between two brackets, or outside all of them.

use crate::shape::Shape;
use si_token::{Token, TokenKind};

// What stands in brackets, or between the words of a statement.
#[derive(Clone, Copy)]
pub(crate) struct Level<'a> {
    // The first token of the item that is read.
    first: Option<Token<'a>>,
    // The item is its first token alone.
    is_one: bool,
    shape: Shape,
    // An operator stands in the item.
    operated: bool,
    // The `if` of a conditional expression, and no `else` yet.
    pub(crate) choosing: bool,
    // The item is passed by name, or is the value of a key.
    pub(crate) named: bool,
    // An item before it was passed by name.
    pub(crate) after_named: bool,
    // A comma stands after an item.
    pub(crate) comma: bool,
    // The place of the first item that is no target, and what it is.
    wrong: Option<(usize, Shape)>,
}

impl<'a> Level<'a> {
    // Before the first item.
    pub(crate) fn new() -> Level<'a> {
        Level {
            first: None,
            is_one: false,
            shape: Shape::Empty,
            operated: false,
            choosing: false,
            named: false,
            after_named: false,
            comma: false,
            wrong: None,
        }
    }

    // A token of the item that is no operand.
    pub(crate) fn token(&mut self, token: Token<'a>) {
        self.is_one = self.first.is_none();
        if self.is_one {
            self.first = Some(token);
        }
    }

    // An operand, or a longer one.
    pub(crate) fn operand(&mut self, token: Token<'a>, shape: Shape) {
        self.token(token);
        self.shape = shape;
    }

    // The operand is a longer one.
    pub(crate) fn longer(&mut self, shape: Shape) {
        self.is_one = false;
        self.shape = shape;
    }

    // An operator.
    pub(crate) fn operator(&mut self, token: Token<'a>) {
        self.token(token);
        self.operated = true;
    }

    // Whether the item has no token.
    pub(crate) fn is_empty(&self) -> bool {
        self.first.is_none()
    }

    // Whether there is neither an item nor a comma.
    pub(crate) fn is_blank(&self) -> bool {
        self.first.is_none() && !self.comma
    }

    // The text of the item's first token.
    pub(crate) fn first_text(&self) -> &'a str {
        match self.first {
            Some(token) => token.text,
            None => "",
        }
    }

    // The place of the item's first token, or else another.
    pub(crate) fn first_or(&self, place: usize) -> usize {
        match self.first {
            Some(token) => token.start(),
            None => place,
        }
    }

    // The name that the item is, where it is one.
    pub(crate) fn one_name(&self) -> Option<&'a str> {
        match self.first {
            Some(
                Token {
                    kind: TokenKind::Name,
                    text,
                    ..
                },
            ) if self.is_one => Some(text),
            _ => None,
        }
    }

    // What the item is.
    pub(crate) fn item_shape(&self) -> Shape {
        if self.operated {
            Shape::Operation
        } else {
            self.shape
        }
    }

    // What all items are together, where brackets or commas make them one.
    pub(crate) fn shape(&self, is_list: bool) -> Shape {
        if self.is_blank() {
            return Shape::Empty;
        }
        if !self.comma && !is_list {
            return self.item_shape();
        }
        match self.no_target() {
            Some((_, shape)) => shape,
            None => Shape::Row,
        }
    }

    // The place of the first item that is no target, and what it is.
    pub(crate) fn no_target(&self) -> Option<(usize, Shape)> {
        if self.wrong.is_some() {
            return self.wrong;
        }
        let first = self.first?;
        if self.item_shape().is_target() {
            None
        } else {
            Some((first.start(), self.item_shape()))
        }
    }

    // After the item.
    pub(crate) fn next_item(&mut self) {
        self.wrong = self.no_target();
        self.first = None;
        self.is_one = false;
        self.operated = false;
        self.shape = Shape::Empty;
        self.after_named = self.after_named || self.named;
        self.named = false;
    }
}

// What a bracket opens.
#[derive(Clone, Copy, PartialEq, Eq)]
pub(crate) enum Bracket {
    Tuple,
    Call,
    Index,
    List,
    Dict,
}

impl Bracket {
    // The bracket that closes it, as it is expected.
    pub(crate) fn closing(self) -> &'static str {
        match self {
            Bracket::Tuple | Bracket::Call => "`,` or `)`",
            Bracket::Index => "`]`",
            Bracket::List => "`,` or `]`",
            Bracket::Dict => "`,` or `}`",
        }
    }
}

// An open bracket, and what stands around it.
#[derive(Clone, Copy)]
pub(crate) struct Frame<'a> {
    pub(crate) bracket: Bracket,
    pub(crate) open: Token<'a>,
    pub(crate) outer: Level<'a>,
}
