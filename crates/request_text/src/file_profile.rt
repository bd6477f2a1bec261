//! The profile of a request file.
ghost use Rattle.std.specs.Prelude.{◌≡◌, [], ◌∷◌};
ghost use Rattle.request_words.specs.Words.{line_words};
ghost use Rattle.request_text.specs.Profiles.{has_tenants, modules_profile, profile_of, retires, sends};

use crate::request::Reason;
use request_words::next_word;
use wasm_values::Profile;

// The profile of a request file.
#[derive(Clone, Copy)]
pub(crate) enum FileProfile {
    One,
    Two,
    Three,
    Four,
    Five,
}

impl FileProfile {
    // The profile of this number.
    #[tactic(auto, unfolding(crate::specs::Profiles::profile_of))]
    fn named(word: &[u8]) -> Result<FileProfile, Reason>
        ensures { result ≡ profile_of (word.now ∷ []) }
    {
        if word == b"1".as_slice() {
            Ok(FileProfile::One)
        } else if word == b"2".as_slice() {
            Ok(FileProfile::Two)
        } else if word == b"3".as_slice() {
            Ok(FileProfile::Three)
        } else if word == b"4".as_slice() {
            Ok(FileProfile::Four)
        } else if word == b"5".as_slice() {
            Ok(FileProfile::Five)
        } else {
            Err(Reason::BadProfile)
        }
    }

    // The profile that the words after `profile` name.
    #[tactic(auto, unfolding(crate::specs::Profiles::profile_of))]
    pub(crate) fn read(words: &[u8]) -> Result<FileProfile, Reason>
        ensures { result ≡ profile_of (line_words words.now) }
    {
        let (word, rest) = next_word(words).ok_or(Reason::BadProfile)?;
        if next_word(rest).is_some() {
            return Err(Reason::BadProfile);
        }
        FileProfile::named(word)
    }

    // The profile in which the modules of a file are read.
    pub(crate) fn of_modules(self) -> Profile
        ensures { result ≡ modules_profile self }
    {
        match self {
            FileProfile::One => Profile::One,
            FileProfile::Two => Profile::Two,
            FileProfile::Three | FileProfile::Four | FileProfile::Five => Profile::Three,
        }
    }

    // Whether lines send.
    pub(crate) fn sends(self) -> bool
        ensures { result ≡ sends self }
    {
        match self {
            FileProfile::One | FileProfile::Two => false,
            FileProfile::Three | FileProfile::Four | FileProfile::Five => true,
        }
    }

    // Whether lines name tenants.
    pub(crate) fn has_tenants(self) -> bool
        ensures { result ≡ has_tenants self }
    {
        match self {
            FileProfile::One | FileProfile::Two | FileProfile::Three => false,
            FileProfile::Four | FileProfile::Five => true,
        }
    }

    // Whether lines retire modules.
    pub(crate) fn retires(self) -> bool
        ensures { result ≡ retires self }
    {
        match self {
            FileProfile::One | FileProfile::Two | FileProfile::Three | FileProfile::Four => false,
            FileProfile::Five => true,
        }
    }

    // Whether each call is made whole.
    pub(crate) fn runs_whole(self) -> bool
        ensures { result ≡ has_tenants self }
    {
        match self {
            FileProfile::One | FileProfile::Two | FileProfile::Three => false,
            FileProfile::Four | FileProfile::Five => true,
        }
    }
}
