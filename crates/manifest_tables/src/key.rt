//! The keys of a manifest.

ghost use Rattle.std.specs.Prelude.{◌≡◌, ℕ, List};
ghost use Rattle.manifest_tables.specs.declared.key.Flaw.{Flaw};

/// What is wrong at a key.
#[derive(Clone, Copy, Debug, PartialEq, Eq)]
pub enum Flaw {
    /// A key that has to be there is not.
    MissingKey,
    /// A value of another type.
    WrongKind,
    /// A key that the table does not have.
    UnknownKey,
    /// A text that is empty, or has a control character.
    BadText,
}

/// A key of a manifest.
pub trait Key: Copy {
    /// What is told of a flaw.
    type Fault: Drop;

    /// The key as it stands in the text.
    ghost spelling: { Self → List ℕ };

    /// What is told of a flaw at the key.
    ghost told: { Self → Flaw → Self.Fault };

    /// What stands for a key that a table does not have.
    ghost other: { Self };

    /// The key as it stands in the text.
    fn text(self) -> &'static str
    where
        Self: Sized,
        ensures { result.now ≡ spelling self };

    /// What is told of a flaw at the key.
    fn fault(self, flaw: Flaw) -> Self::Fault
    where
        Self: Sized,
        ensures { result ≡ told self flaw };

    /// What stands for a key that a table does not have.
    fn unknown() -> Self
    where
        Self: Sized,
        ensures { result ≡ other };
}
