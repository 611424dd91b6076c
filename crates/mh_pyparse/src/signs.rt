//! The words and signs that the parser knows, by their tags.

use mh_pytok::Tok;

pub const ASSERT: Tok = Tok::Keyword(6);

pub const BREAK: Tok = Tok::Keyword(9);

pub const CONTINUE: Tok = Tok::Keyword(11);

pub const DEF: Tok = Tok::Keyword(12);

pub const ELIF: Tok = Tok::Keyword(14);

pub const ELSE: Tok = Tok::Keyword(15);

pub const FOR: Tok = Tok::Keyword(18);

pub const FROM: Tok = Tok::Keyword(19);

pub const IF: Tok = Tok::Keyword(21);

pub const IMPORT: Tok = Tok::Keyword(22);

pub const IN: Tok = Tok::Keyword(23);

pub const PASS: Tok = Tok::Keyword(29);

pub const RAISE: Tok = Tok::Keyword(30);

pub const RETURN: Tok = Tok::Keyword(31);

pub const WHILE: Tok = Tok::Keyword(33);

pub const YIELD: Tok = Tok::Keyword(35);

pub const STAR: Tok = Tok::Sign(3);

pub const EQUALS: Tok = Tok::Sign(18);

pub const LPAREN: Tok = Tok::Sign(29);

pub const RPAREN: Tok = Tok::Sign(30);

pub const LBRACKET: Tok = Tok::Sign(31);

pub const RBRACKET: Tok = Tok::Sign(32);

pub const COMMA: Tok = Tok::Sign(33);

pub const COLON: Tok = Tok::Sign(34);

pub const SEMICOLON: Tok = Tok::Sign(36);

pub const AT: Tok = Tok::Sign(37);
