//! What a text is answered by its grammar and by the rules on names, types, values and structure.

ghost use Rattle.std.specs.Prelude.{◌<◌, length};

use std::alloc::Global;
use vd_accepting::{accept19, accept93};
use vd_directives::plain::plain;
use vd_grammar19::read19;
use vd_grammar93::read93;
use vd_lex::{lex19, lex93};
use vd_test_texts::{Answer, LONGEST};
use vd_trees::Revision;

/// What a text of revision 2019 is answered.
fn answered19(alloc: Global, bytes: &[u8]) -> Answer
    requires { length bytes.now < 16777216 }
{
    let Ok(text) = plain(alloc, 0, bytes) else {
        return Answer::Memory;
    };
    let tokens = match lex19(alloc, &text) {
        Ok(tokens) => tokens,
        Err(end) => return Answer::from(end),
    };
    let design = match read19(alloc, &tokens) {
        Ok(design) => design,
        Err(end) => return Answer::from(end),
    };
    match accept19(alloc, &design) {
        Ok(_) => Answer::Ok,
        Err(end) => Answer::from(end),
    }
}

/// What a text of revision 1993 is answered.
fn answered93(alloc: Global, bytes: &[u8]) -> Answer
    requires { length bytes.now < 16777216 }
{
    let Ok(text) = plain(alloc, 0, bytes) else {
        return Answer::Memory;
    };
    let tokens = match lex93(alloc, &text) {
        Ok(tokens) => tokens,
        Err(end) => return Answer::from(end),
    };
    let design = match read93(alloc, &tokens) {
        Ok(design) => design,
        Err(end) => return Answer::from(end),
    };
    match accept93(alloc, &design) {
        Ok(_) => Answer::Ok,
        Err(end) => Answer::from(end),
    }
}

/// What a text is answered.
pub fn answered(alloc: Global, revision: Revision, bytes: &[u8]) -> Answer {
    if bytes.len() >= LONGEST {
        return Answer::Memory;
    }
    match revision {
        Revision::V2019 => answered19(alloc, bytes),
        Revision::V1993 => answered93(alloc, bytes),
    }
}
