// The five calls that a log holds.
ghost use Rattle.std.specs.Prelude.{◌≡◌};
ghost use Rattle.wordlog.specs.Calls.{permission, Permits};

use model::items::EqualityExpl;

// Which mismatches a question may meet: in itself, and in its arguments. The original's struct, and no set of bits.
#[derive(Clone, Copy, Debug, PartialEq, Eq)]
pub struct TransEqAllowed {
    pub can_mismatch_initial: bool,
    pub can_mismatch_congr: bool,
}

// A number to which a log gives no meaning.
#[derive(Clone, Copy, Debug, PartialEq, Eq)]
pub struct UnknownNumber(pub u32);

// Two bits, the lower one for the question itself.
impl From<TransEqAllowed> for u32 {
    ghost from_gives = { λ allowed n. n ≡ permission allowed };

    fn from(allowed: TransEqAllowed) -> u32 {
        u32::from(allowed.can_mismatch_initial) + 2 * u32::from(allowed.can_mismatch_congr)
    }
}

impl TryFrom<u32> for TransEqAllowed {
    type Error = UnknownNumber;

    ghost try_from_gives = { Permits };

    fn try_from(payload: u32) -> Result<Self, UnknownNumber> {
        if payload >= 4 {
            return Err(UnknownNumber(payload));
        }
        Ok(TransEqAllowed {
            can_mismatch_initial: payload % 2 == 1,
            can_mismatch_congr: payload / 2 == 1,
        })
    }
}

// A value and no closure, since it is written, read back and compared.
#[derive(Clone, Copy, Debug, PartialEq, Eq)]
pub enum Call<'a> {
    Enode {
        owner: u32,
    },
    Given {
        expl: EqualityExpl<'a>,
    },
    Open,
    Close,
    Ask {
        allowed: TransEqAllowed,
        from: u32,
        to: u32,
    },
}
