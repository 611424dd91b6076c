ghost use Rattle.std.specs.Prelude.{◌≡◌, ◌≢◌, Some, Err, IfOk, pos};
ghost use Rattle.mh_pytok.specs.Lexeme.{lexemes};
ghost use Rattle.mh_pytok.specs.Numbers.{number_value};
ghost use Rattle.mh_pytok.specs.Strings.{string_value};
ghost use Rattle.mh_pytok.specs.declared.token.Tok.TheVariants as kind;
ghost use Rattle.mh_reader.specs.Reader as reader;
ghost use Rattle.mh_reader.specs.Reader.{Reads};
ghost use Rattle.mh_reader.specs.declared.fault.Fault.TheVariants as fault;
ghost use Rattle.mh_pyparse.specs.Cursor.{AreIn, kind_at, text_at, ReadsString};
ghost use Rattle.mh_pyparse.specs.Signs as signs;
ghost use Rattle.mh_pyparse.specs.Reading as spec;
ghost use Rattle.mh_pyparse.specs.ReadingStatements as statements;

use crate::infix::{Infix, Prefix, augment_of, begins, infix_of, prefix_of};
use mh_pytok::{Tok, Token, number, string};
use mh_pytree::Operator;
use mh_reader::Fault;
use mh_text::{Memory, Text};
use std::alloc::Global;
use std::marker::Model;

/// The tokens that are still to read, and the source that they lie in.
#[derive(Drop)]
pub struct Tokens<'a> {
    rest: &'a [Token],
    src: &'a [u8],
}

impl<'a> Model for Tokens<'a> {
    ghost use Rattle.std.specs.Prelude.{List};
    ghost use Rattle.mh_pytok.specs.Lexeme.{Lexeme, lexemes};
    ghost use Rattle.mh_pyparse.specs.Cursor.{AreIn};

    ghost Value = { List Lexeme };

    ghost view = { λ t. lexemes t.src.now t.rest.now };

    ghost invariant = { λ t. AreIn t.src.now t.rest.now };
}

/// Whether two kinds are the same.
pub fn same_kind(a: Tok, b: Tok) -> bool
    ensures { result ≡ signs.same_kind a b }
{
    match (a, b) {
        (Tok::Name, Tok::Name)
        | (Tok::Number, Tok::Number)
        | (Tok::Str, Tok::Str)
        | (Tok::Newline, Tok::Newline)
        | (Tok::Indent, Tok::Indent)
        | (Tok::Dedent, Tok::Dedent)
        | (Tok::End, Tok::End) => true,
        (Tok::Keyword(a), Tok::Keyword(b)) | (Tok::Sign(a), Tok::Sign(b)) => a == b,
        _ => false,
    }
}

impl<'a> Tokens<'a> {
    /// Before the first of these tokens.
    pub fn new(tokens: &'a [Token], src: &'a [u8]) -> Tokens<'a>
        requires { AreIn src.now tokens.now }
        ensures { result ≡ lexemes src.now tokens.now }
    {
        Tokens { rest: tokens, src }
    }

    /// The kind of the next token.
    pub fn peek(&self) -> Option<Tok>
        ensures { result ≡ kind_at self.now }
    {
        match self.rest {
            [] => None,
            [token, ..] => Some(token.kind),
        }
    }

    /// The text of the next token, empty where there is none.
    pub fn text(&self) -> &'a [u8]
        ensures { result.now ≡ text_at self.now }
    {
        match self.rest {
            [] => &[],
            [token, ..] => &self.src[token.span.start as usize..token.span.end as usize],
        }
    }

    /// The line of the next token, 0 where there is none.
    pub fn line(&self) -> u32
        ensures { result ≡ statements.line_at (reader.first_of self.now) }
    {
        match self.rest {
            [] => 0,
            [token, ..] => token.span.line,
        }
    }

    /// The operator that the next token is after a first operand.
    pub fn infix(&self) -> Option<Infix>
        ensures { result ≡ spec.infix_at (reader.first_of self.now) }
    {
        infix_of(self.peek()?)
    }

    /// The operator that the next token is in front of an operand.
    pub fn prefix(&self) -> Option<Prefix>
        ensures { result ≡ spec.prefix_at (reader.first_of self.now) }
    {
        prefix_of(self.peek()?)
    }

    /// The operator of an assignment that the next token is.
    pub fn augment(&self) -> Option<Operator>
        ensures { result ≡ statements.augment_at (reader.first_of self.now) }
    {
        augment_of(self.peek()?)
    }

    /// Whether the text ends with the next token.
    #[tactic(auto, unfolding(crate::specs::Reading::is))]
    pub fn ends(&self) -> bool
        ensures { result ≡ statements.ends_at (reader.first_of self.now) }
    {
        match self.peek() {
            None => false,
            Some(kind) => same_kind(kind, Tok::End),
        }
    }

    /// Whether an expression may begin with the next token.
    pub fn begins(&self) -> bool
        ensures { result ≡ spec.begins_at (reader.first_of self.now) }
    {
        match self.peek() {
            None => false,
            Some(kind) => begins(kind),
        }
    }

    /// The value of the next token, a number.
    pub fn number(&self) -> i128
        requires { kind_at self.now ≡ Some kind.Number }
        ensures { result ≡ pos (number_value (text_at self.now)) }
    {
        match self.rest {
            [] => 0,
            [token, ..] => number(&self.src[token.span.start as usize..token.span.end as usize]),
        }
    }

    /// The bytes that the text of the next token stands for, a string.
    pub fn string(&self, alloc: Global) -> Result<Text, Memory>
        ensures { IfOk result (λ s. s ≡ string_value (text_at self.now)) }
    {
        string(alloc, self.text())
    }

    /// Takes the next token, if there is one.
    pub fn take(&mut self)
        ensures { self.new ≡ reader.behind self.old }
    {
        if let [_, rest @ ..] = self.rest {
            self.rest = rest;
        }
    }

    /// Whether the next token is of this kind.
    #[tactic(auto, unfolding(crate::specs::Reading::is))]
    pub fn sees(&self, kind: Tok) -> bool
        ensures { result ≡ reader.sees (spec.is kind) self.now }
    {
        match self.peek() {
            None => false,
            Some(next) => same_kind(next, kind),
        }
    }

    /// Takes the next token if it is of this kind, and says whether it was.
    #[tactic(auto, unfolding(mh_reader::specs::Reader::after))]
    pub fn eat(&mut self, kind: Tok) -> bool
        ensures found { result ≡ reader.sees (spec.is kind) self.old }
        ensures after { self.new ≡ reader.after (spec.is kind) self.old }
    {
        let found = self.sees(kind);
        if found {
            self.take();
        }
        found
    }

    /// Takes the next token, which has to be of this kind.
    #[tactic(auto, unfolding(mh_reader::specs::Reader::expect))]
    pub fn expect(&mut self, kind: Tok) -> Result<(), Fault>
        ensures reads { Reads (reader.expect (spec.is kind) self.old) result self.new }
        ensures takes_no_memory { result ≢ Err fault.Memory }
    {
        if self.sees(kind) {
            self.take();
            Ok(())
        } else {
            Err(Fault::Syntax)
        }
    }

    /// Whether the next token is the name of the library that is imported.
    #[tactic(auto, unfolding(crate::specs::ReadingStatements::is_module))]
    fn sees_module(&self) -> bool
        ensures { result ≡ reader.sees statements.is_module self.now }
    {
        self.sees(Tok::Name) && self.text() == b"myhdl".as_slice()
    }

    /// Takes the name of the library that is imported.
    #[tactic(auto, unfolding(mh_reader::specs::Reader::expect))]
    pub fn expect_module(&mut self) -> Result<(), Fault>
        ensures { Reads (reader.expect statements.is_module self.old) result self.new }
    {
        if self.sees_module() {
            self.take();
            Ok(())
        } else {
            Err(Fault::Syntax)
        }
    }

    /// Takes a name, and answers its text.
    #[tactic(auto, unfolding(mh_reader::specs::Reader::want, crate::specs::Reading::text_if))]
    pub fn take_name(&mut self, alloc: Global) -> Result<Text, Fault>
        ensures { Reads (reader.want (spec.text_if kind.Name) self.old) result self.new }
    {
        if !self.sees(Tok::Name) {
            return Err(Fault::Syntax);
        }
        let text = Text::new(alloc, self.text())?;
        self.take();
        Ok(text)
    }

    /// Takes a string, and answers the bytes that it stands for.
    #[tactic(auto, unfolding(mh_reader::specs::Reader::want, crate::specs::Reading::text_if, crate::specs::Reading::is))]
    pub fn take_string(&mut self, alloc: Global) -> Result<Text, Fault>
        ensures { ReadsString self.old result self.new }
    {
        let Some(Tok::Str) = self.peek() else {
            return Err(Fault::Syntax);
        };
        let text = self.string(alloc)?;
        self.take();
        Ok(text)
    }

    /// Refuses unless all tokens were read.
    #[tactic(auto, unfolding(mh_reader::specs::Reader::nothing))]
    pub fn nothing(&self) -> Result<(), Fault>
        ensures { Reads (reader.nothing self.now) result self.now }
    {
        match self.rest {
            [] => Ok(()),
            _ => Err(Fault::Syntax),
        }
    }
}
