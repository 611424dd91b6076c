use mh_consts::Const;
use mh_design::Generator;
use mh_pytree::PyStmt;
use mh_text::Text;
use sqlite_items::Items;

/// A function of the source, whose definition was executed.
#[derive(Drop)]
pub struct Function<'a> {
    /// The line of the word `def`.
    pub line: u32,
    pub name: Text,
    /// It stands under `@block`.
    pub is_block: bool,
    /// The parameters, with the default values.
    pub params: Items<(Text, Option<Const>)>,
    pub body: &'a [PyStmt],
    /// The frame in which it was defined.
    pub home: u32,
}

/// A generator whose definition was executed; its path is its name.
#[derive(Drop)]
pub struct Made {
    pub generator: Generator,
    /// The instance whose block was being executed.
    pub inside: Option<u32>,
}

/// What is called, with the value of each of its parameters.
#[derive(Drop)]
pub struct Called<'a> {
    /// The line of the word `def`.
    pub line: u32,
    pub name: Text,
    pub is_block: bool,
    pub body: &'a [PyStmt],
    /// The frame in which it was defined.
    pub home: u32,
    /// The value of each parameter, in their order.
    pub arguments: Items<(Text, Const)>,
}
