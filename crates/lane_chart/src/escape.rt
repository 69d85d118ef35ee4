// Text within SVG.
ghost use Rattle.lane_chart.specs.Escape.{escape, escaped};
ghost use Rattle.std.specs.Prelude.{◌≡◌, ◌++◌, OnOk};

use tuple_edge::OutOfMemory;

// Appends a text as it stands.
pub(crate) fn push_text(out: &mut Vec<u8>, text: &str) -> Result<(), OutOfMemory>
    ensures { OnOk result (out.new.items ≡ out.old.items ++ text.now) }
{
    out.extend_from_slice(text.as_bytes())?;
    Ok(())
}

// Appends what is written for a byte.
fn push_byte(out: &mut Vec<u8>, byte: u8) -> Result<(), OutOfMemory>
    ensures { OnOk result (out.new.items ≡ out.old.items ++ escape byte) }
{
    match byte {
        b'&' => push_text(out, "&amp;"),
        b'<' => push_text(out, "&lt;"),
        b'>' => push_text(out, "&gt;"),
        b'"' => push_text(out, "&quot;"),
        b'\'' => push_text(out, "&#39;"),
        0..=31 => push_text(out, " "),
        _ => {
            out.push(byte)?;
            Ok(())
        }
    }
}

// Appends a text as it is written within SVG.
pub(crate) fn push_escaped(out: &mut Vec<u8>, text: &str) -> Result<(), OutOfMemory>
    ensures { OnOk result (out.new.items ≡ out.old.items ++ escaped text.now) }
{
    for byte in text.as_bytes() {
        push_byte(out, *byte)?;
    }
    Ok(())
}
