// What may help.
ghost use Rattle.std.specs.Prelude.{◌≡◌};
ghost use Rattle.ticklab_explain.specs.Hints.{place_span};
ghost use Rattle.ticklab_explain.specs.Settings.{setting};

use crate::piece::Piece;
use crate::scene::Scene;
use base::span::Span;

/// What may help: its words, and the other place that it speaks of.
pub type Hint = (&'static [Piece], OtherPlace);

/// Another place than that of the refusal.
#[derive(Clone, Copy)]
pub enum OtherPlace {
    Nowhere,
    /// Where the name is declared first that the refusal is about.
    FirstDeclaration,
    /// The innermost `{` before that is still open.
    OpenBrace,
    /// Where the token before ends.
    EndBefore,
}

impl OtherPlace {
    pub fn span(self, scene: &Scene) -> Option<Span>
        ensures { result ≡ place_span (setting scene.now) self }
    {
        match self {
            OtherPlace::Nowhere => None,
            OtherPlace::FirstDeclaration => scene.first_declaration(),
            OtherPlace::OpenBrace => scene.open_brace(),
            OtherPlace::EndBefore => {
                let end = scene.front_end();
                Some(Span { start: end, end })
            }
        }
    }
}

// Makes a hint of its words, with what they quote in brackets between them. The other place that it speaks of
// stands last, behind a comma.
macro_rules! one_hint {
    (($first:tt $([$($quoted:tt)+] $words:tt)*)) => {
        ($crate::piece::pieces!($first $([$($quoted)+] $words)*), $crate::hint::OtherPlace::Nowhere)
    };
    (($first:tt $([$($quoted:tt)+] $words:tt)*, $place:ident)) => {
        ($crate::piece::pieces!($first $([$($quoted)+] $words)*), $crate::hint::OtherPlace::$place)
    };
}

pub(crate) use one_hint;
