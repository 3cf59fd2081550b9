//! The names that a file declares, and those of its ports by their modes.

ghost use Rattle.std.specs.Prelude.{◌≡◌, OnOk, IfOk, true};
ghost use Rattle.vd_first_grammar.specs.Symbols.{word};
ghost use Rattle.vd_first_grammar.specs.Known.{known_of};
ghost use Rattle.vd_first_grammar.specs.Reader.{is, with_texts, with_mode, no_names};

use crate::reader_names::Names;
use std::alloc::{AllocError, Global};
use vd_bytes::Text;
use vd_first_lex::tokens::{Kind, OUT, Token};

/// All names that are taken, and those of ports.
#[derive(Drop)]
pub(crate) struct KnownNames {
    pub(crate) declared: Names,
    pub(crate) ins: Names,
    pub(crate) outs: Names,
}

/// The names that no file may declare.
pub(crate) fn no_names(alloc: Global) -> Result<KnownNames, AllocError>
    ensures { IfOk result (λ known. known_of known ≡ no_names true) }
{
    let mut declared = Names::new(alloc);
    declared.add(b"work")?;
    declared.add(b"std")?;
    declared.add(b"ieee")?;
    declared.add(b"std_logic_1164")?;
    declared.add(b"std_ulogic")?;
    Ok(KnownNames {
        declared,
        ins: Names::new(alloc),
        outs: Names::new(alloc),
    })
}

/// Some more names.
fn add_all(names: &mut Names, texts: &[Text]) -> Result<(), AllocError>
    ensures { OnOk result (names.new ≡ with_texts names.old texts.now) }
{
    for text in texts {
        names.add(text.as_slice())?;
    }
    Ok(())
}

/// Whether a token is the word `out`.
pub(crate) fn is_out(mode: &Token) -> bool
    ensures { result ≡ is (word OUT) mode.now }
{
    match mode.kind {
        Kind::Word(word) => word == OUT,
        _ => false,
    }
}

/// The names of a port of this mode.
pub(crate) fn add_mode(
    known: &mut KnownNames,
    texts: &[Text],
    mode: &Token,
) -> Result<(), AllocError>
    ensures { OnOk result (known_of known.new ≡ with_mode (known_of known.old) texts.now mode.now) }
{
    if is_out(mode) {
        add_all(&mut known.outs, texts)
    } else {
        add_all(&mut known.ins, texts)
    }
}
