//! The words of the command line.

ghost use Rattle.std.specs.Prelude.{◌≡◌, length};
ghost use Rattle.std.specs.Str.{is_utf8};
ghost use Rattle.mh_top.specs.CommandOf.{are_convert, are_sim, is_file_name as is_name, IsCommandOf};

use mh_text::Text;

/// What the words ask for.
pub(crate) enum Command<'a> {
    /// Convert the source that `file` holds, and store its Verilog text under `out`.
    Convert { file: &'a Text, out: &'a Text },
    /// Run what the source that `file` holds asks to run.
    Sim { file: &'a Text },
    /// The words give no command.
    Unknown,
}

/// Whether a word is UTF-8.
fn is_text(word: &[u8]) -> bool
    ensures { result ≡ is_utf8 word.now }
{
    match std::str::from_utf8(word) {
        Ok(_) => true,
        Err(_) => false,
    }
}

/// Whether a word is the name of a file: it isn't empty, doesn't begin with a hyphen and is UTF-8.
fn is_file_name(word: &[u8]) -> bool
    ensures { result ≡ is_name word.now }
{
    match word {
        [] => false,
        [first, ..] => *first != b'-' && is_text(word),
    }
}

/// Whether four words are those of `convert`.
fn is_convert(verb: &[u8], file: &[u8], option: &[u8], out: &[u8]) -> bool
    ensures { result ≡ are_convert verb.now file.now option.now out.now }
{
    verb == b"convert".as_slice()
        && option == b"--verilog".as_slice()
        && is_file_name(file)
        && is_file_name(out)
        && file != out
}

/// Whether two words are those of `sim`.
fn is_sim(verb: &[u8], file: &[u8]) -> bool
    ensures { result ≡ are_sim verb.now file.now }
{
    verb == b"sim".as_slice() && is_file_name(file)
}

/// The command that two words give.
fn command_of_two(words: &[Text]) -> Command<'_>
    requires { length words.now ≡ 2 }
    ensures { IsCommandOf words.now result }
{
    let file = &words[1];
    if is_sim(words[0].bytes(), file.bytes()) {
        Command::Sim { file }
    } else {
        Command::Unknown
    }
}

/// The command that four words give.
fn command_of_four(words: &[Text]) -> Command<'_>
    requires { length words.now ≡ 4 }
    ensures { IsCommandOf words.now result }
{
    let file = &words[1];
    let out = &words[3];
    if is_convert(
        words[0].bytes(),
        file.bytes(),
        words[2].bytes(),
        out.bytes(),
    ) {
        Command::Convert { file, out }
    } else {
        Command::Unknown
    }
}

/// The command that the words give.
pub(crate) fn command_of(words: &[Text]) -> Command<'_>
    ensures { IsCommandOf words.now result }
{
    match words.len() {
        2 => command_of_two(words),
        4 => command_of_four(words),
        _ => Command::Unknown,
    }
}
