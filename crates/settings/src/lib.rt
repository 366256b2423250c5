// The settings that a store was made with, kept in a cookie of 64 bytes (document 01, "Settings cookie").
//
//     PersistentSettings::serialize(leaf_fanout, &mut cookie);
//     match PersistentSettings::verify(&cookie, leaf_fanout) {
//         Ok(()) => ..,
//         Err(refusal) => ..,  // 1, too short; 4, the check differs; 6, another version; 7, another fanout
//     }
#![tactic(auto)]

ghost use Rattle.std.specs.Prelude.{◌≡◌};
ghost use Rattle.settings.specs.declared.PersistentSettings.TheVariants.{V1};
ghost use Rattle.settings.specs.Settings.{Storing, storing, settings_of, agreement};

use refusal::{Kind, Refusal};

const COOKIE_LENGTH: usize = 64;

const VERSION: u64 = 1;
// Where the fanout starts and where it ends; where the check starts.
const FANOUT: usize = 2;

const PADDING: usize = 10;

const CHECK: usize = 60;

// What a cookie says.
#[derive(Clone, Copy, Debug, PartialEq, Eq)]
pub enum PersistentSettings {
    V1 { leaf_fanout: u64 },
}

impl PersistentSettings {
    // Writes the cookie.
    pub fn serialize(leaf_fanout: u64, cookie: &mut [u8]) -> Result<(), Refusal>
        ensures { ◌≡◌ {A = Storing} (record { answer = result; cookie = cookie.new })
            (storing leaf_fanout cookie.old) }
    {
        if cookie.len() != COOKIE_LENGTH {
            return Err(Refusal::of(Kind::WrongShape));
        }
        little_endian::put_at(cookie, 0, FANOUT, VERSION);
        little_endian::put_at(cookie, FANOUT, PADDING, leaf_fanout);
        little_endian::put_at(cookie, PADDING, CHECK, 0);
        seal::write(cookie);
        Ok(())
    }

    // Reads a cookie.
    pub fn deserialize(cookie: &[u8]) -> Result<PersistentSettings, Refusal>
        ensures { result ≡ settings_of cookie.now }
    {
        if cookie.len() < COOKIE_LENGTH {
            return Err(Refusal::of(Kind::WrongShape));
        }
        if !seal::agrees(&cookie[..COOKIE_LENGTH]) {
            return Err(Refusal::of(Kind::CheckDiffers));
        }
        if little_endian::get_at(cookie, 0, FANOUT) != VERSION {
            return Err(Refusal::of(Kind::UnknownVersion));
        }
        Ok(PersistentSettings::V1 {
            leaf_fanout: little_endian::get_at(cookie, FANOUT, PADDING),
        })
    }

    // Whether the cookie was written with this fanout.
    pub fn verify(cookie: &[u8], leaf_fanout: u64) -> Result<(), Refusal>
        ensures { result ≡ agreement leaf_fanout (settings_of cookie.now) }
    {
        if PersistentSettings::deserialize(cookie)?.leaf_fanout() != leaf_fanout {
            return Err(Refusal::of(Kind::FanoutDiffers));
        }
        Ok(())
    }

    // The fanout that they give.
    pub fn leaf_fanout(self) -> u64
        ensures { self ≡ V1 result }
    {
        match self {
            PersistentSettings::V1 { leaf_fanout } => leaf_fanout,
        }
    }
}
