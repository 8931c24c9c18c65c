//! Text as XML has it.
ghost use Rattle.std.specs.Prelude.{◌≡◌, ◌++◌, IfOk, OnOk, string_bytes};
ghost use Rattle.std.specs.List.{All};
ghost use Rattle.epoch_pictures.specs.Escapes.{IsText, escape, escaped_byte};

use std::alloc::{AllocError, Global};

/// A text of which no byte is read as markup.
#[derive(Drop)]
pub struct SvgText {
    text: String,
    ghost plain: { All IsText (string_bytes text) },
}

impl SvgText {
    /// The text, escaped. `AllocError`: an allocation was refused.
    pub fn of(alloc: Global, text: &str) -> Result<SvgText, AllocError> {
        let text = escaped(alloc, text)?;
        Ok(SvgText { text })
    }

    /// What is written of it.
    pub fn as_str(&self) -> &str
        ensures { All IsText result.now }
    {
        self.text.as_str()
    }
}

/// The text with `&`, `<`, `>` and `"` as entities, and with `?` for every byte outside of plain ASCII text, of which
/// pictures have none. `AllocError`: an allocation was refused.
pub fn escaped(alloc: Global, text: &str) -> Result<String, AllocError>
    // `escaped` writes a text with `&`, `<`, `>` and `"` as entities, and every byte outside of plain ASCII text as
    // `?`. So no byte of it is `<`, `>` or `"`. The two functions that write texts and titles take only such a text.
    ensures value { IfOk result (λ written. string_bytes written ≡ escape text.now) }
    // No byte of it is read as markup.
    ensures plain { IfOk result (λ written. All IsText (string_bytes written)) }
{
    let mut written = String::new(alloc);
    let bytes = text.as_bytes();
    for byte in bytes {
        push_escaped(&mut written, *byte)?;
    }
    Ok(written)
}

fn push_escaped(text: &mut String, byte: u8) -> Result<(), AllocError>
    ensures { OnOk result (string_bytes text.new ≡ string_bytes text.old ++ escaped_byte byte) }
{
    match byte {
        b'&' => text.push_str("&amp;"),
        b'<' => text.push_str("&lt;"),
        b'>' => text.push_str("&gt;"),
        b'"' => text.push_str("&quot;"),
        32..=126 => text.push(byte as char),
        _ => text.push_str("?"),
    }
}
