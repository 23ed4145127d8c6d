//! Tokens.

ghost use Rattle.std.specs.Prelude.{◌≡◌};
ghost use Rattle.src_lexer.specs.Symbols.{spelling};

/// A reserved word.
#[derive(Clone, Copy, Debug, PartialEq, Eq)]
pub enum Keyword {
    /// `var`
    Var,
    /// `array`
    Array,
    /// `print`
    Print,
    /// `if`
    If,
    /// `else`
    Else,
    /// `while`
    While,
}

/// A symbol of one or two bytes.
#[derive(Clone, Copy, Debug, PartialEq, Eq)]
pub enum Symbol {
    /// `;`
    Semi,
    /// `=`
    Assign,
    /// `[`
    LBracket,
    /// `]`
    RBracket,
    /// `{`
    LBrace,
    /// `}`
    RBrace,
    /// `(`
    LParen,
    /// `)`
    RParen,
    /// `|`
    Or,
    /// `^`
    Xor,
    /// `&`
    And,
    /// `==`
    Eq,
    /// `!=`
    Ne,
    /// `<`
    Lt,
    /// `<=`
    Le,
    /// `>`
    Gt,
    /// `>=`
    Ge,
    /// `<<`
    Shl,
    /// `>>`
    Shr,
    /// `+`
    Add,
    /// `-`
    Sub,
    /// `*`
    Mul,
    /// `/`
    Div,
    /// `%`
    Rem,
    /// `~`
    Not,
}

/// All symbols.
pub const SYMBOLS: [Symbol; 25] = [
    Symbol::Semi,
    Symbol::Assign,
    Symbol::LBracket,
    Symbol::RBracket,
    Symbol::LBrace,
    Symbol::RBrace,
    Symbol::LParen,
    Symbol::RParen,
    Symbol::Or,
    Symbol::Xor,
    Symbol::And,
    Symbol::Eq,
    Symbol::Ne,
    Symbol::Lt,
    Symbol::Le,
    Symbol::Gt,
    Symbol::Ge,
    Symbol::Shl,
    Symbol::Shr,
    Symbol::Add,
    Symbol::Sub,
    Symbol::Mul,
    Symbol::Div,
    Symbol::Rem,
    Symbol::Not,
];

impl Symbol {
    /// How it is written.
    pub fn text(self) -> &'static [u8]
        ensures { result.now ≡ spelling self }
    {
        match self {
            Symbol::Semi => b";",
            Symbol::Assign => b"=",
            Symbol::LBracket => b"[",
            Symbol::RBracket => b"]",
            Symbol::LBrace => b"{",
            Symbol::RBrace => b"}",
            Symbol::LParen => b"(",
            Symbol::RParen => b")",
            Symbol::Or => b"|",
            Symbol::Xor => b"^",
            Symbol::And => b"&",
            Symbol::Eq => b"==",
            Symbol::Ne => b"!=",
            Symbol::Lt => b"<",
            Symbol::Le => b"<=",
            Symbol::Gt => b">",
            Symbol::Ge => b">=",
            Symbol::Shl => b"<<",
            Symbol::Shr => b">>",
            Symbol::Add => b"+",
            Symbol::Sub => b"-",
            Symbol::Mul => b"*",
            Symbol::Div => b"/",
            Symbol::Rem => b"%",
            Symbol::Not => b"~",
        }
    }
}

/// What a token is.
#[derive(Clone, Copy, Debug, PartialEq, Eq)]
pub enum TokenKind {
    /// A letter or `_`, then letters, digits and `_`; no reserved word; 64 bytes at most.
    Name,
    /// A row of decimal digits, and their value from 0 to 2^63 - 1.
    Number {
        /// The digits' value.
        value: i64,
    },
    /// A reserved word.
    Word(Keyword),
    /// A symbol.
    Sym(Symbol),
}

/// A token: what it is, and which bytes of the text it stands for.
#[derive(Clone, Copy, Debug, PartialEq, Eq)]
pub struct Token {
    /// What it is.
    pub kind: TokenKind,
    /// The place of its first byte, from 0.
    pub at: u32,
    /// The place behind its last byte.
    pub end: u32,
}
