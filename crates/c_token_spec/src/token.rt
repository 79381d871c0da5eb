//! The tokens of C.

/// A keyword of C11 (6.4.1), or a word by which compilers spell assembly and attributes.
#[derive(Clone, Copy, Debug, PartialEq, Eq)]
pub enum Keyword {
    /// `auto`
    Auto,
    /// `break`
    Break,
    /// `case`
    Case,
    /// `char`
    Char,
    /// `const`
    Const,
    /// `continue`
    Continue,
    /// `default`
    Default,
    /// `do`
    Do,
    /// `double`
    Double,
    /// `else`
    Else,
    /// `enum`
    Enum,
    /// `extern`
    Extern,
    /// `float`
    Float,
    /// `for`
    For,
    /// `goto`
    Goto,
    /// `if`
    If,
    /// `inline`
    Inline,
    /// `int`
    Int,
    /// `long`
    Long,
    /// `register`
    Register,
    /// `restrict`
    Restrict,
    /// `return`
    Return,
    /// `short`
    Short,
    /// `signed`
    Signed,
    /// `sizeof`
    Sizeof,
    /// `static`
    Static,
    /// `struct`
    Struct,
    /// `switch`
    Switch,
    /// `typedef`
    Typedef,
    /// `union`
    Union,
    /// `unsigned`
    Unsigned,
    /// `void`
    Void,
    /// `volatile`
    Volatile,
    /// `while`
    While,
    /// `_Alignas`
    Alignas,
    /// `_Alignof`
    Alignof,
    /// `_Atomic`
    Atomic,
    /// `_Bool`
    Boolean,
    /// `_Complex`
    Complex,
    /// `_Generic`
    Generic,
    /// `_Imaginary`
    Imaginary,
    /// `_Noreturn`
    Noreturn,
    /// `_Static_assert`
    StaticAssert,
    /// `_Thread_local`
    ThreadLocal,
    /// `asm`, `__asm`, `__asm__`
    Asm,
    /// `__attribute__`
    Attribute,
}

/// A punctuator (6.4.6) of the grammar, or `...`.
#[derive(Clone, Copy, Debug, PartialEq, Eq)]
pub enum Punctuator {
    /// `...`
    Ellipsis,
    /// `<<=`
    ShiftLeftAssign,
    /// `>>=`
    ShiftRightAssign,
    /// `->`
    Arrow,
    /// `++`
    Increment,
    /// `--`
    Decrement,
    /// `<<`
    ShiftLeft,
    /// `>>`
    ShiftRight,
    /// `<=`
    LessOrEqual,
    /// `>=`
    GreaterOrEqual,
    /// `==`
    Equals,
    /// `!=`
    NotEquals,
    /// `&&`
    LogicalAnd,
    /// `||`
    LogicalOr,
    /// `*=`
    StarAssign,
    /// `/=`
    SlashAssign,
    /// `%=`
    PercentAssign,
    /// `+=`
    PlusAssign,
    /// `-=`
    MinusAssign,
    /// `&=`
    AmpersandAssign,
    /// `^=`
    CaretAssign,
    /// `|=`
    BarAssign,
    /// `(`
    LeftParenthesis,
    /// `)`
    RightParenthesis,
    /// `[`
    LeftBracket,
    /// `]`
    RightBracket,
    /// `{`
    LeftBrace,
    /// `}`
    RightBrace,
    /// `.`
    Dot,
    /// `&`
    Ampersand,
    /// `*`
    Star,
    /// `+`
    Plus,
    /// `-`
    Minus,
    /// `~`
    Tilde,
    /// `!`
    Exclamation,
    /// `/`
    Slash,
    /// `%`
    Percent,
    /// `<`
    LessThan,
    /// `>`
    GreaterThan,
    /// `^`
    Caret,
    /// `|`
    Bar,
    /// `?`
    Question,
    /// `:`
    Colon,
    /// `;`
    Semicolon,
    /// `=`
    Assign,
    /// `,`
    Comma,
}

/// The type of a number (6.4.4.1), `long` being the same type as `int`.
#[derive(Clone, Copy)]
pub enum NumberType {
    /// `int`, of 32 bits
    SignedInt,
    /// `unsigned int`
    UnsignedInt,
    /// `long long`, of 64 bits
    SignedLongLong,
    /// `unsigned long long`
    UnsignedLongLong,
}

/// What the suffix of a number asks of its type.
#[derive(Clone, Copy)]
pub struct Suffix {
    /// An unsigned type.
    pub is_unsigned: bool,
    /// A type of 64 bits.
    pub is_long_long: bool,
}

/// Why a text has no tokens. The offset of each is that of the first byte of what is at fault.
#[derive(Clone, Copy, Debug)]
pub enum TokenFaultKind {
    /// A byte that begins no token.
    Byte,
    /// What begins as a number is none, or no type holds it.
    Number,
    /// What begins as a character constant is none.
    Character,
    /// A comment is not closed.
    Comment,
}
