// Adds markup and texts of files to a page.
ghost use Rattle.std.specs.Prelude.{◌≡◌, ◌++◌, OnOk};
ghost use Rattle.ticklab_page.specs.Shown.{shown, shown_byte};
ghost use Rattle.ticklab_page.specs.Writing.{around, markup, times, twice};

use itoa::Buffer;
use std::alloc::AllocError;

/// It was added, or memory was refused.
pub type Added = Result<(), AllocError>;

/// Adds markup.
#[tactic(auto, unfolding(crate::specs::Writing::markup))]
pub fn push(page: &mut Vec<u8>, text: &str) -> Added
    ensures { OnOk result (page.new.items ≡ page.old.items ++ markup text.now) }
{
    page.extend_from_slice(text.as_bytes())
}

/// Adds a number between markup.
#[tactic(auto, unfolding(crate::specs::Writing::around, crate::specs::Writing::markup))]
pub fn push_around(page: &mut Vec<u8>, before: &str, number: u64, after: &str) -> Added
    ensures { OnOk result (page.new.items ≡ page.old.items ++ around before.now number after.now) }
{
    push(page, before)?;
    push(page, Buffer::new().format(number))?;
    push(page, after)
}

/// Adds a number at two places, with markup before it, between and after it.
#[tactic(auto, unfolding(crate::specs::Writing::twice))]
pub fn push_twice(
    page: &mut Vec<u8>,
    before: &str,
    number: u64,
    between: &str,
    after: &str,
) -> Added
    ensures { OnOk result (page.new.items ≡ page.old.items ++ twice before.now number between.now after.now) }
{
    push_around(page, before, number, "")?;
    push_around(page, between, number, after)
}

/// Adds a text that is no markup.
pub fn push_shown(page: &mut Vec<u8>, text: &[u8]) -> Added
    ensures { OnOk result (page.new.items ≡ page.old.items ++ shown text.now) }
{
    for byte in text {
        push_shown_byte(page, *byte)?;
    }
    Ok(())
}

fn push_shown_byte(page: &mut Vec<u8>, byte: u8) -> Added
    ensures { OnOk result (page.new.items ≡ page.old.items ++ shown_byte byte) }
{
    let name = match byte {
        38 => "&amp;",
        60 => "&lt;",
        62 => "&gt;",
        34 => "&quot;",
        39 => "&#39;",
        0..=8 | 10..=31 | 127 => "?",
        _ => return page.extend_from_slice(&[byte]),
    };
    page.extend_from_slice(name.as_bytes())
}

/// Adds the same markup so many times.
pub fn push_times(page: &mut Vec<u8>, count: u8, text: &str) -> Added
    ensures { OnOk result (page.new.items ≡ page.old.items ++ times count text.now) }
{
    'times: for _ in 0..count {
        push(page, text)?;
    }
    Ok(())
}
