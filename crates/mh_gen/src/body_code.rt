use crate::language::MyHdl;
use mh_flat::{Code, Lang};

/// The code of the body of a generator, which a value that stays holds in this: it lets the code go.
pub struct BodyCode<'a> {
    pub code: Code<MyHdl<'a>>,
}

/// Lets code go, of whatever language it is.
fn let_go<L: Lang>(_code: Code<L>) {}

impl<'a> Drop for BodyCode<'a> {
    fn drop(self) {
        let BodyCode { code } = self;
        let_go(code);
    }
}
