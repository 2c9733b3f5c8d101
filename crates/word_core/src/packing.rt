//! Where labels stand in the 64 bits of a word: a byte and a presence bit for each process.
ghost use Rattle.std.specs.Prelude.{◌≡◌, ◌↔◌, ◌==◌, ◌+◌, ◌-◌, ◌*◌, ◌^◌, ◌<◌, ◌≤◌, ℕ, [], length, replicate, bit_and, MatchOption, IsTrue};
ghost use Rattle.label_core.specs.Labels.{label_number};
ghost use Rattle.word_core.specs.Stamps.{Labels, cleared};
ghost use Rattle.word_core.specs.Packed.{AreLabels, word};
ghost use Rattle.word_core.specs.prover.Packing.{byte_in, presence_in, label_in, labels_in, Counts, Fits, AllCount, AreGathered, mask_but};

use label_core::{Label, MOST_LABELS};

/// The name of the layout that is told here, as texts give it.
pub const LAYOUT: &str = "layout 3";

// The bytes lie below this bit, the presence bits from it on.
const PRESENCE: u8 = 48;

// The byte of process `i`.
fn byte(bits: u64, i: u8) -> u8
    requires { i < 6 }
    ensures { result ≡ byte_in bits i }
{
    ((bits >> (8 * i)) % 256) as u8
}

/// Whether the presence bit of process `i` is set.
pub fn is_present(bits: u64, i: u8) -> bool
    requires { i < 6 }
    ensures { result ≡ (presence_in bits i == 1) }
{
    (bits >> (PRESENCE + i)) % 2 == 1
}

/// Whether no bit is set past the bytes and the presence bits of `n` processes.
pub fn fits(n: u8, bits: u64) -> bool
    requires { n ≤ 6 }
    ensures { IsTrue result ↔ Fits n bits }
{
    let bytes = bits % (1 << PRESENCE);
    bytes >> (8 * n) == 0 && bits >> PRESENCE >> n == 0
}

// Whether process `i` of `n` has what it may have: the number of a label, or byte 0 where it is absent.
fn counts(n: u8, bits: u64, i: u8) -> bool
    requires at_least_one { 1 ≤ n }
    requires at_most_six { n ≤ 6 }
    requires in_range { i < n }
    ensures { IsTrue result ↔ Counts (n - 1) (byte_in bits i) (presence_in bits i) }
{
    if is_present(bits, i) {
        Label::of_number(n, byte(bits, i)).is_some()
    } else {
        byte(bits, i) == 0
    }
}

/// Whether each of `n` processes has what it may have.
pub fn all_count(n: u8, bits: u64) -> bool
    requires at_least_one { 1 ≤ n }
    requires at_most_six { n ≤ 6 }
    ensures { IsTrue result ↔ AllCount n bits }
{
    for i in 0..n {
        if !counts(n, bits, i) {
            return false;
        }
    }
    true
}

/// The label of `digits` digits of process `i`, where it is present.
pub fn label_in(bits: u64, i: u8, digits: u8) -> Option<Label>
    requires narrow { digits ≤ 5 }
    requires few { i < 6 }
    requires counts { Counts digits (byte_in bits i) (presence_in bits i) }
    ensures { result ≡ label_in digits bits i }
{
    if !is_present(bits, i) {
        return None;
    }
    Some(Label::numbered(digits, byte(bits, i)))
}

/// Writes the labels of those of `n` processes that are present into a row of empty ones, and answers how
/// many there are; `None` where one has what it may not have. It goes over the processes once.
#[inline(always)]
pub fn gather_in(n: u8, bits: u64, row: &mut [Label; MOST_LABELS]) -> Option<u8>
    requires at_least_one { 1 ≤ n }
    requires at_most_six { n ≤ 6 }
    requires empty { row.old ≡ replicate 6 [] }
    ensures { MatchOption result (¬ AllCount n bits) (λ count. AllCount n bits × AreGathered (labels_in n bits) row.new count) }
{
    let mut count = 0;
    for i in 0..n {
        if !counts(n, bits, i) {
            return None;
        }
        if let Some(label) = label_in(bits, i, n - 1) {
            row[count as usize] = label;
            count += 1;
        }
    }
    Some(count)
}

/// The bits with this label for process `p`, which had none.
pub fn with_label(bits: u64, p: u8, label: &Label) -> u64
    requires few { p < 6 }
    requires room { bits + label_number label.now * 2 ^ (8 * p) + 2 ^ (48 + p) < 2 ^ 64 }
    ensures { result ≡ bits + label_number label.now * 2 ^ (8 * p) + 2 ^ (48 + p) }
{
    bits + (u64::from(label.number()) << (8 * p)) + (1 << (PRESENCE + p))
}

/// What is left of a word where process `p` gives its label up: of a word of at most six processes
/// the `&` with this is the word without its label.
pub fn clear_mask(p: u8) -> u64
    requires { p < 6 }
    ensures { (n : ℕ) (labels : Labels) → n ≤ 6 → AreLabels n labels → p < length labels → bit_and (word labels) result ≡ word (cleared p labels) }
{
    mask_but(p)
}

// Ones in the bytes and the presence bits of all processes but `p`.
fn mask_but(p: u8) -> u64
    requires { p < 6 }
    ensures { result ≡ mask_but p }
{
    match p {
        0 => 0x003E_FFFF_FFFF_FF00,
        1 => 0x003D_FFFF_FFFF_00FF,
        2 => 0x003B_FFFF_FF00_FFFF,
        3 => 0x0037_FFFF_00FF_FFFF,
        4 => 0x002F_FF00_FFFF_FFFF,
        _ => 0x001F_00FF_FFFF_FFFF,
    }
}
