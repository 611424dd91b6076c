// Rules that are broken at a line.
ghost use Rattle.std.specs.Prelude.{◌≡◌, Err};
ghost use Rattle.mh_text.specs.declared.fault.Fault.TheVariants as fault;
ghost use Rattle.mh_world.specs.Placed.{SaysAt};

use mh_text::{Code, CodeAt, Fault};

/// A rule that the statement at a line breaks.
pub fn refuse<T>(code: Code, line: u32) -> Result<T, Fault<CodeAt>>
    ensures { result ≡ Err (fault.Broken (code, line)) }
{
    Err(Fault::Broken((code, line)))
}

/// A rule that is broken by the statement at a line, which the one who knows the rule doesn't know.
pub fn at_line<T>(result_of: Result<T, Code>, line: u32) -> Result<T, Fault<CodeAt>>
    ensures { SaysAt line result_of result }
{
    match result_of {
        Ok(x) => Ok(x),
        Err(code) => Err(Fault::Broken((code, line))),
    }
}
