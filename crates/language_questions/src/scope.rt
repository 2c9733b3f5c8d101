ghost use Rattle.std.specs.Prelude.{◌≡◌, ◌≤◌};
ghost use Rattle.std.specs.List.{position};
ghost use Rattle.std.specs.Str.{bytes_eq};

/// The most quantifiers within one another.
pub const MOST_BOUND: usize = 8;

/// The names that the quantifiers bind which a part of a question stands in.
#[derive(Clone, Copy)]
pub struct Scope<'a> {
    /// The outermost first, and no name from `count` on.
    pub names: [&'a str; MOST_BOUND],
    pub count: usize,
    ghost within: { count ≤ 8 },
}

impl<'a> Scope<'a> {
    ghost use Rattle.std.specs.Prelude.{◌≡◌, ◌<◌, ◌∷◌, [], ◌++◌, length};
    ghost use Rattle.language_questions.specs.Names.{bound_number, names_of};

    /// That of a whole question.
    pub fn new() -> Scope<'a>
        ensures { names_of result ≡ [] }
    {
        Scope {
            names: [""; MOST_BOUND],
            count: 0,
        }
    }

    /// How many names there are.
    pub fn len(&self) -> usize
        ensures { result ≡ length (names_of self.now) }
    {
        self.count
    }

    /// The number of the quantifier that binds these letters, if one does.
    pub fn number(&self, letters: &str) -> Option<usize>
        ensures { result ≡ bound_number (names_of self.now) letters.now }
    {
        number_among(&self.names[..self.count], letters)
    }

    /// These names and then one more.
    pub fn with(&self, name: &'a str) -> Scope<'a>
        requires { length (names_of self.now) < 8 }
        ensures { names_of result ≡ names_of self.now ++ name.now ∷ [] }
    {
        let mut names = self.names;
        names[self.count] = name;
        Scope {
            names,
            count: self.count + 1,
        }
    }
}

// Which of these names is spelled so.
fn number_among(names: &[&str], letters: &str) -> Option<usize>
    ensures { result ≡ position (λ name. bytes_eq name.now letters.now) names.now }
{
    names.iter().position(|name| *name == letters)
}
