// What the rows of hints ask about a place.
ghost use Rattle.std.specs.Prelude.{◌≡◌};
ghost use Rattle.std.specs.List.{list_all};
ghost use Rattle.ticklab_explain.specs.Conditions.{begins_with, contains, holds, is_so, item, wants};
ghost use Rattle.ticklab_explain.specs.Rows.{conditions_of, words_of};
ghost use Rattle.ticklab_explain.specs.Settings.{setting};

use crate::part::{Part, has};
use crate::scene::{Scene, byte_at, shortened};
use crate::wanted::Wanted;
use crate::words::is_one_of;

/// What may be so at a place, and the words that it speaks of. Rows are tuples, since no definition can name a constant
/// with a struct that holds references.
pub type Condition = (Ask, &'static [&'static str]);

/// What is asked of a place, mostly about words.
#[derive(Clone, Copy)]
pub enum Ask {
    /// One of them stands here.
    Here,
    /// One of them stands so many tokens before.
    Before(usize),
    /// One of them stands so many tokens after.
    After(usize),
    /// Another word stands so many tokens before.
    NotBefore(usize),
    /// Another word stands so many tokens after.
    NotAfter(usize),
    /// A name stands so many tokens before.
    NameBefore(usize),
    /// A name stands so many tokens after.
    NameAfter(usize),
    /// The refusal is about one of them.
    About,
    /// This byte stands in the item that the refusal is about.
    ItemHas(u8),
    /// The item begins with this byte.
    ItemBegins(u8),
    /// The item ends with this byte.
    ItemEnds(u8),
    /// The item ends with these two bytes.
    ItemEndsWith(u8, u8),
    /// The text begins with these bytes.
    TextBegins(u8, u8),
    /// A token is wanted that is told by one of these samples.
    Wants,
    /// There is such a part.
    Has(Part),
    Is(Fact),
    Not(Fact),
}

/// What may be so at a place, whatever is wanted there.
#[derive(Clone, Copy)]
pub enum Fact {
    /// The text has no tokens.
    Empty,
    /// The first token stands here.
    AtStart,
    AtEnd,
    Name,
    Keyword,
    /// `begin` stands before.
    Begun,
    /// A `{` before is still open.
    InBraces,
    /// What stands here touches the token before.
    Touches,
    /// What stands here stands there twice.
    Doubled,
    /// `=` follows what the refusal is about.
    BeforeEquals,
    /// The name that the refusal is about is declared.
    Declared,
    /// Items may begin with `c`.
    Clears,
}

fn holds(ask: Ask, words: &[&str], scene: &Scene, wanted: &[Wanted]) -> bool
    ensures { result ≡ holds (setting scene.now) wanted.now ask (words_of words.now) }
{
    match ask {
        Ask::Here => is_one_of(scene.here(), words),
        Ask::Before(count) => is_one_of(scene.before(count), words),
        Ask::After(count) => is_one_of(scene.after(count), words),
        Ask::NotBefore(count) => !is_one_of(scene.before(count), words),
        Ask::NotAfter(count) => !is_one_of(scene.after(count), words),
        Ask::NameBefore(count) => scene.is_name_before(count),
        Ask::NameAfter(count) => scene.is_name_after(count),
        Ask::About => is_one_of(scene.about(), words),
        Ask::ItemHas(byte) => contains(item(scene), byte),
        Ask::ItemBegins(byte) => item(scene).starts_with(&[byte]),
        Ask::ItemEnds(byte) => item(scene).ends_with(&[byte]),
        Ask::ItemEndsWith(first, last) => item(scene).ends_with(&[first, last]),
        Ask::TextBegins(first, second) => begins_with(scene, first, second),
        Ask::Wants => wants(wanted, words),
        Ask::Has(part) => has(scene, part),
        Ask::Is(fact) => fact.is_so(scene),
        Ask::Not(fact) => !fact.is_so(scene),
    }
}

impl Fact {
    fn is_so(self, scene: &Scene) -> bool
        ensures { result ≡ is_so (setting scene.now) self }
    {
        match self {
            Fact::Empty => scene.tokens.is_empty(),
            Fact::AtStart => scene.at == 0,
            Fact::AtEnd => scene.sort().is_none(),
            Fact::Name => scene.is_name_at(scene.at),
            Fact::Keyword => scene.is_keyword(),
            Fact::Begun => scene.has_begun(),
            Fact::InBraces => scene.open_brace().is_some(),
            Fact::Touches => scene.touches(),
            Fact::Doubled => scene.after(1) == scene.here(),
            Fact::BeforeEquals => byte_at(scene.text, scene.span.end) == b'=',
            Fact::Declared => scene.first_declaration().is_some(),
            Fact::Clears => scene.items.clears,
        }
    }
}

// The item that the refusal is about.
#[tactic(auto, unfolding(crate::specs::Conditions::item))]
fn item<'a>(scene: &Scene<'a>) -> &'a [u8]
    ensures { result.now ≡ item (setting scene.now) }
{
    shortened(scene.about()).as_bytes()
}

fn contains(item: &[u8], byte: u8) -> bool
    ensures { result ≡ contains item.now byte }
{
    item.iter().any(|one| *one == byte)
}

// Whether the text begins with these two bytes.
#[tactic(auto, unfolding(crate::specs::Conditions::begins_with))]
fn begins_with(scene: &Scene, first: u8, second: u8) -> bool
    ensures { result ≡ begins_with (setting scene.now) first second }
{
    (byte_at(scene.text, 0) == first) & (byte_at(scene.text, 1) == second)
}

// Whether a token is wanted that is told by one of these samples.
fn wants(wanted: &[Wanted], samples: &[&str]) -> bool
    ensures { result ≡ wants wanted.now (words_of samples.now) }
{
    wanted.iter().any(|one| is_one_of(one.sample(), samples))
}

/// Whether all of them are so.
pub fn fit(conditions: &[Condition], scene: &Scene, wanted: &[Wanted]) -> bool
    ensures { result ≡ list_all (λ one. holds (setting scene.now) wanted.now one.0 one.1) (conditions_of conditions.now) }
{
    all_hold(conditions, scene, wanted)
}

fn all_hold(conditions: &[Condition], scene: &Scene, wanted: &[Wanted]) -> bool
    ensures { result ≡ list_all (λ one. holds (setting scene.now) wanted.now one.0 (words_of one.1.now)) conditions.now }
{
    conditions
        .iter()
        .all(|(ask, words)| holds(*ask, words, scene, wanted))
}

// Makes a condition. Its words stand in it one by one, or as a list behind `in`.
macro_rules! one_condition {
    (Here(in $words:ident)) => { ($crate::condition::Ask::Here, $words) };
    (Here($($word:literal),+)) => { ($crate::condition::Ask::Here, &[$($word),+]) };
    (About($($word:literal),+)) => { ($crate::condition::Ask::About, &[$($word),+]) };
    (Wants($($word:literal),+)) => { ($crate::condition::Ask::Wants, &[$($word),+]) };
    (ItemEndsWith($first:literal, $last:literal)) => { ($crate::condition::Ask::ItemEndsWith($first, $last), &[]) };
    (TextBegins($first:literal, $second:literal)) => { ($crate::condition::Ask::TextBegins($first, $second), &[]) };
    ($name:ident($count:literal, in $words:ident)) => { ($crate::condition::Ask::$name($count), $words) };
    ($name:ident($count:literal, $($word:literal),+)) => { ($crate::condition::Ask::$name($count), &[$($word),+]) };
    ($name:ident($value:expr)) => { ($crate::condition::Ask::$name($value), &[]) };
}

pub(crate) use one_condition;
