// The head of a stored record (oracle/README.md, "The stored answers", has the form): the call that it
// asks for, and the operation's number. The parts of the replayer share this.
#![tactic(auto)]

ghost use Rattle.std.specs.Prelude.{◌<◌, ◌≤◌, ◌≡◌, length, take, IfOk, OnErr};
ghost use Rattle.replay.specs.Answers.{number_at};
ghost use Rattle.replay_head.specs.Calls.{OperationTold, Asked, within_room};

use replay::Cut;

// How many bytes a head has.
pub const HEAD: usize = 22;

// How many entries there is room for in the list that is lent.
pub const ROOM: usize = 32259;

// The operations, by the names of their C functions. Their numbers are in the order in which they came.
#[derive(Clone, Copy, Debug, PartialEq, Eq)]
pub enum Operation {
    CarrierBin,
    RoleMap,
    SignMap,
    DataList,
    ContinualList,
    SamplesNeeded,
    DetectMode,
    IntegerCfo,
    DetectKinds,
    TmccSoft,
    DetectSpPhase,
    EstimateGrid,
    Root,
    Narrow,
    Norm32,
    Norm64,
    FrameStart,
    BinRatio,
    CarrierRole,
    Angle,
    CfoFrac,
}

// How many operations there are; their numbers are 1 to this.
pub const OPERATIONS: usize = 21;

impl TryFrom<u8> for Operation {
    type Error = Cut;

    ghost try_from_gives = { OperationTold };

    fn try_from(number: u8) -> Result<Operation, Cut> {
        match number {
            1 => Ok(Operation::CarrierBin),
            2 => Ok(Operation::RoleMap),
            3 => Ok(Operation::SignMap),
            4 => Ok(Operation::DataList),
            5 => Ok(Operation::ContinualList),
            6 => Ok(Operation::SamplesNeeded),
            7 => Ok(Operation::DetectMode),
            8 => Ok(Operation::IntegerCfo),
            9 => Ok(Operation::DetectKinds),
            10 => Ok(Operation::TmccSoft),
            11 => Ok(Operation::DetectSpPhase),
            12 => Ok(Operation::EstimateGrid),
            13 => Ok(Operation::Root),
            14 => Ok(Operation::Narrow),
            15 => Ok(Operation::Norm32),
            16 => Ok(Operation::Norm64),
            17 => Ok(Operation::FrameStart),
            18 => Ok(Operation::BinRatio),
            19 => Ok(Operation::CarrierRole),
            20 => Ok(Operation::Angle),
            21 => Ok(Operation::CfoFrac),
            _ => Err(Cut),
        }
    }
}

// What the head of a record says of the call: what it returns, the arguments that are numbers, in the
// order of the C function, and the entries of the list that is lent to be written. No operation is
// lent two such lists. The first two numbers are there as bytes too, which most operations take: the
// mode, and a phase or a filter.
#[derive(Clone, Copy)]
pub struct Call {
    pub code: u8,
    pub mode: u8,
    pub choice: u8,
    pub first: usize,
    pub second: usize,
    pub third: usize,
    pub fourth: usize,
    pub lent: usize,
}

impl Call {
    // The call that a head asks for.
    pub fn of(head: &[u8; HEAD]) -> Call
        ensures { Asked head.now result }
    {
        Call {
            code: head[1],
            mode: head[2],
            choice: head[4],
            first: size_at(head, 2),
            second: size_at(head, 4),
            third: size_at(head, 6),
            fourth: size_at(head, 8),
            lent: size_at(head, 10),
        }
    }

    // The same, where there is room for what it lends. `lend` asks for that too, but a call that is lent
    // no list never comes to it, and a head that tells more entries makes no sense there either.
    pub fn within_room(self) -> Result<Call, Cut>
        ensures { result ≡ within_room self }
    {
        if ROOM < self.lent {
            return Err(Cut);
        }
        Ok(self)
    }

    // The entries of a room that the call lends, if it has so many.
    pub fn lend<T>(self, room: &mut [T]) -> Result<&mut [T], Cut>
        ensures entries { IfOk result (λ entries. entries.now ≡ take self.lent room.old) }
        ensures whole { IfOk result (λ entries. length entries.now ≡ self.lent) }
        ensures cut { OnErr result (length room.old < self.lent) }
    {
        room.get_mut(..self.lent).ok_or(Cut)
    }
}

// The number of two bytes that begins at an index.
pub fn size_at(head: &[u8; HEAD], at: usize) -> usize
    requires { at < 20 }
    ensures { result ≡ number_at head.now at }
{
    usize::from(replay::number_at(head, at))
}
