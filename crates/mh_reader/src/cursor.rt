ghost use Rattle.std.specs.Prelude.{◌≡◌, ◌≢◌, Bool, Err};
ghost use Rattle.mh_reader.specs.Lexeme.{Lexeme, lexemes, AreIn, kind_at, text_at, line_at, is_of, text_if};
ghost use Rattle.mh_reader.specs.declared.fault.Fault.TheVariants as fault;
ghost use Rattle.mh_reader.specs.Reader as reader;
ghost use Rattle.mh_reader.specs.Reader.{Reads};

use crate::fault::Fault;
use crate::token::Token;
use mh_text::Text;
use std::alloc::Global;
use std::marker::Model;

/// The kind of a token, which can be compared with another.
pub trait Kind: Copy {
    ghost same: { Self → Self → Bool };

    /// Whether it is the same kind as another.
    fn is(self, other: Self) -> bool
        ensures { result ≡ same self other };
}

/// The tokens that are still to read, and the source that they lie in.
#[derive(Drop)]
pub struct Tokens<'a, K> {
    rest: &'a [Token<K>],
    src: &'a [u8],
}

impl<'a, K> Model for Tokens<'a, K> {
    ghost use Rattle.std.specs.Prelude.{List};
    ghost use Rattle.std.specs.Coded.{coded_list};
    ghost use Rattle.mh_reader.specs.Lexeme.{Lexeme, lexeme_code, lexemes, AreIn};

    ghost Value = { List (Lexeme K) };

    ghost coded = { coded_list (lexeme_code K.code) };

    ghost view = { λ t. lexemes t.src.now t.rest.now };

    ghost invariant = { λ t. AreIn t.src.now t.rest.now };
}

impl<'a, K: Kind> Tokens<'a, K> {
    /// Before the first of these tokens, each of which lies in the source.
    pub fn new(tokens: &'a [Token<K>], src: &'a [u8]) -> Tokens<'a, K>
        requires { AreIn src.now tokens.now }
        ensures { result ≡ lexemes src.now tokens.now }
    {
        Tokens { rest: tokens, src }
    }

    /// The kind of the next token.
    pub fn peek(&self) -> Option<K>
        ensures { result ≡ kind_at self.now }
    {
        match self.rest {
            [] => None,
            [token, ..] => Some(token.kind),
        }
    }

    /// The text of the next token, empty where there is none.
    pub fn text(&self) -> &'a [u8]
        ensures { result.now ≡ text_at self.now }
    {
        match self.rest {
            [] => &[],
            [token, ..] => &self.src[token.span.start as usize..token.span.end as usize],
        }
    }

    /// The line of the next token, 0 where there is none.
    pub fn line(&self) -> u32
        ensures { result ≡ line_at self.now }
    {
        match self.rest {
            [] => 0,
            [token, ..] => token.span.line,
        }
    }

    /// Takes the next token, if there is one.
    pub fn take(&mut self)
        ensures { self.new ≡ reader.behind self.old }
    {
        if let [_, rest @ ..] = self.rest {
            self.rest = rest;
        }
    }

    /// Whether the next token is of this kind.
    pub fn sees(&self, kind: K) -> bool
        ensures { result ≡ reader.sees (is_of K.same kind) self.now }
    {
        match self.peek() {
            None => false,
            Some(next) => next.is(kind),
        }
    }

    /// Takes the next token if it is of this kind, and says whether it was.
    #[tactic(auto, unfolding(crate::specs::Reader::after))]
    pub fn eat(&mut self, kind: K) -> bool
        ensures found { result ≡ reader.sees (is_of K.same kind) self.old }
        ensures after { self.new ≡ reader.after (is_of K.same kind) self.old }
    {
        let found = self.sees(kind);
        if found {
            self.take();
        }
        found
    }

    /// Takes the next token, which has to be of this kind.
    #[tactic(auto, unfolding(crate::specs::Reader::expect))]
    pub fn expect(&mut self, kind: K) -> Result<(), Fault>
        ensures reads { Reads (reader.expect (is_of K.same kind) self.old) result self.new }
        ensures takes_no_memory { result ≢ Err fault.Memory }
    {
        if self.sees(kind) {
            self.take();
            Ok(())
        } else {
            Err(Fault::Syntax)
        }
    }

    /// Takes a token of this kind, and answers its text.
    #[tactic(auto, unfolding(crate::specs::Reader::want))]
    pub fn take_text(&mut self, alloc: Global, kind: K) -> Result<Text, Fault>
        ensures { Reads (reader.want (text_if K.same kind) self.old) result self.new }
    {
        if !self.sees(kind) {
            return Err(Fault::Syntax);
        }
        let text = Text::new(alloc, self.text())?;
        self.take();
        Ok(text)
    }

    /// Refuses unless all tokens were read.
    #[tactic(auto, unfolding(crate::specs::Reader::nothing))]
    pub fn nothing(&self) -> Result<(), Fault>
        ensures reads { Reads (reader.nothing self.now) result self.now }
        ensures takes_no_memory { result ≢ Err fault.Memory }
    {
        match self.rest {
            [] => Ok(()),
            _ => Err(Fault::Syntax),
        }
    }
}
