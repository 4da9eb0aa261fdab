// A stored call of a search.
ghost use Rattle.std.specs.Prelude.{◌≡◌, ◌≤◌, length};

use crate::lent::{CUTS, FLOATS, INDICES, POOL};
use costs::{CostFunction, Penalty};
use pelt::Pelt;
use refusals::Refusal;
use replay_common::{float, number};

// The public searches, by their numbers.
#[derive(Clone, Copy)]
pub(crate) enum Function {
    Detect,
    DetectMulti,
    DetectStrict,
    DetectMultiStrict,
}

// Bytes that are no call: a setting has no such number, or more is lent than there is.
#[derive(Clone, Copy)]
pub(crate) struct NoCall;

// How much is lent of each area.
#[derive(Clone, Copy)]
pub(crate) struct Room {
    pub cuts: usize,
    pub floats: usize,
    pub indices: usize,
    pub pool: usize,
    ghost cuts_fit: { cuts ≤ 2064 },
    ghost floats_fit: { floats ≤ 73776 },
    ghost indices_fit: { indices ≤ 12312 },
    ghost pool_fits: { pool ≤ 64000 },
}

// A call, and what it is to answer: the number of its refusal or 0, the channel and the index of refusal
// 8, and the number of cuts, in one number.
#[derive(Clone, Copy)]
pub(crate) struct Call {
    pub function: Function,
    pub pelt: Pelt,
    pub room: Room,
    pub stored: u64,
}

impl TryFrom<u8> for Function {
    type Error = NoCall;

    fn try_from(number: u8) -> Result<Function, NoCall> {
        match number {
            0 => Ok(Function::Detect),
            1 => Ok(Function::DetectMulti),
            2 => Ok(Function::DetectStrict),
            3 => Ok(Function::DetectMultiStrict),
            _ => Err(NoCall),
        }
    }
}

impl Room {
    // The room that the 12 `bytes` say: the numbers of cuts, floats, indices and pool floats.
    fn of_bytes(bytes: &[u8]) -> Result<Room, NoCall>
        requires { length bytes.now ≡ 12 }
    {
        let cuts = number(&bytes[..2]) as usize;
        let floats = number(&bytes[2..6]) as usize;
        let indices = number(&bytes[6..8]) as usize;
        let pool = number(&bytes[8..]) as usize;
        if CUTS < cuts || FLOATS < floats || INDICES < indices || POOL < pool {
            return Err(NoCall);
        }
        Ok(Room {
            cuts,
            floats,
            indices,
            pool,
        })
    }
}

// The cost of the number `number`.
fn cost_of(number: u8) -> Result<CostFunction, NoCall> {
    match number {
        0 => Ok(CostFunction::L2),
        1 => Ok(CostFunction::Normal),
        _ => Err(NoCall),
    }
}

// The penalty of the number `number`, where a custom one is `custom`.
fn penalty_of(number: u8, custom: f64) -> Result<Penalty, NoCall> {
    match number {
        0 => Ok(Penalty::Bic),
        1 => Ok(Penalty::Custom(custom)),
        _ => Err(NoCall),
    }
}

impl TryFrom<[u8; 39]> for Call {
    type Error = NoCall;

    fn try_from(bytes: [u8; 39]) -> Result<Call, NoCall> {
        let function = Function::try_from(bytes[0])?;
        let cost = cost_of(bytes[1])?;
        let penalty = penalty_of(bytes[2], float(&bytes[4..12]))?;
        let pelt = match bytes[3] {
            0 => Pelt::new(cost, penalty),
            1 => Pelt::with_min_segment_len(cost, penalty, number(&bytes[12..20]) as usize),
            _ => return Err(NoCall),
        };
        Ok(Call {
            function,
            pelt,
            room: Room::of_bytes(&bytes[20..32])?,
            stored: number(&bytes[32..]),
        })
    }
}

impl Call {
    // The number of the refusal that is stored, or 0.
    pub(crate) fn refusal(self) -> u64 {
        self.stored >> 48
    }

    // The kind of what is stored: an answer by the cost and the penalty, or a refusal.
    pub(crate) fn outcome(self) -> usize {
        if self.refusal() != 0 {
            return (11 + self.refusal() % 13) as usize;
        }
        match (self.pelt.cost, self.pelt.penalty) {
            (CostFunction::L2, Penalty::Bic) => 4,
            (CostFunction::L2, Penalty::Custom(_)) => 5,
            (CostFunction::Normal, Penalty::Bic) => 6,
            (CostFunction::Normal, Penalty::Custom(_)) => 7,
        }
    }

    // The search of `run` with the `lengths`, in the lent areas.
    pub(crate) fn search(
        self,
        run: &[f64],
        lengths: &[usize],
        cuts: &mut [usize],
        floats: &mut [f64],
        indices: &mut [usize],
        pool: &mut [f64],
    ) -> Result<usize, Refusal> {
        let pelt = self.pelt;
        match self.function {
            Function::Detect => pelt.detect(run, cuts, floats, indices, pool),
            Function::DetectMulti => pelt.detect_multi(run, lengths, cuts, floats, indices, pool),
            Function::DetectStrict => pelt.detect_strict(run, cuts, floats, indices, pool),
            Function::DetectMultiStrict => {
                pelt.detect_multi_strict(run, lengths, cuts, floats, indices, pool)
            }
        }
    }
}
