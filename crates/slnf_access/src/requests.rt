ghost use Rattle.std.specs.Prelude.{◌≡◌, ◌==◌};

/// The number of a key.
#[derive(Clone, Copy, Debug, PartialEq, Eq, PartialOrd, Ord)]
pub struct Key(pub u128);

/// The number of a value.
#[derive(Clone, Copy, Debug, PartialEq, Eq)]
pub struct Value(pub u128);

/// What the store has at a key: a value, and the stamp of the access that wrote it.
#[derive(Clone, Copy, Debug, PartialEq, Eq)]
pub struct Held {
    pub value: Value,
    pub version: u64,
}

/// One access to one key.
#[derive(Clone, Copy, Debug, PartialEq, Eq)]
pub enum Request {
    Read {
        key: Key,
    },
    PutIfAbsent {
        key: Key,
        value: Value,
    },
    ReplaceIf {
        key: Key,
        version: u64,
        value: Value,
    },
    DeleteIf {
        key: Key,
        version: u64,
    },
}

impl Request {
    ghost use Rattle.slnf_access.specs.Map.{key_of, reply_to, cell_after};

    /// The key that the access is to.
    pub fn key(&self) -> Key
        ensures { result.0 ≡ key_of self.now }
    {
        match self {
            Request::Read { key } => *key,
            Request::PutIfAbsent { key, value: _ } => *key,
            Request::ReplaceIf {
                key,
                version: _,
                value: _,
            } => *key,
            Request::DeleteIf { key, version: _ } => *key,
        }
    }

    /// The reply at this stamp, where the key has this value.
    pub fn reply(&self, stamp: u64, held: Option<Held>) -> Reply
        ensures { result ≡ reply_to self.now stamp held }
    {
        match self {
            Request::Read { key: _ } => match held {
                None => Reply::Absent,
                Some(held) => Reply::Found(held.value, held.version),
            },
            Request::PutIfAbsent { key: _, value: _ } => match held {
                None => Reply::Done(stamp),
                Some(held) => Reply::Found(held.value, held.version),
            },
            Request::ReplaceIf {
                key: _,
                version,
                value: _,
            } => conditional_reply(*version, stamp, held),
            Request::DeleteIf { key: _, version } => conditional_reply(*version, stamp, held),
        }
    }

    /// What the key has after the access at this stamp.
    pub fn leaves(&self, stamp: u64, held: Option<Held>) -> Option<Held>
        ensures { result ≡ cell_after self.now stamp held }
    {
        match self {
            Request::Read { key: _ } => held,
            Request::PutIfAbsent { key: _, value } => match held {
                None => Some(Held {
                    value: *value,
                    version: stamp,
                }),
                Some(held) => Some(held),
            },
            Request::ReplaceIf {
                key: _,
                version,
                value,
            } => match held {
                None => None,
                Some(held) => Some(replaced(*version, stamp, *value, held)),
            },
            Request::DeleteIf { key: _, version } => match held {
                None => None,
                Some(held) => deleted(*version, held),
            },
        }
    }
}

/// What the store answers. The numbers are stamps.
#[derive(Clone, Copy, Debug, PartialEq, Eq)]
pub enum Reply {
    Done(u64),
    Found(Value, u64),
    Absent,
}

/// One access that was made: by the incarnation's packet or port `item`, in the shard of its key, as the
/// event `(stamp, shard)`.
#[derive(Clone, Copy, Debug, PartialEq, Eq)]
pub struct Entry {
    pub stamp: u64,
    pub shard: u32,
    pub incarnation: u64,
    pub item: u64,
    pub request: Request,
    pub reply: Reply,
}

/// An access that an item wants to make.
#[derive(Clone, Copy, Debug, PartialEq, Eq)]
pub struct Ask {
    pub item: u64,
    pub request: Request,
}

ghost use Rattle.slnf_access.specs.Map.{conditional_reply, replaced, deleted};

/// The reply to an access that acts where the version is the one that it names.
fn conditional_reply(version: u64, stamp: u64, held: Option<Held>) -> Reply
    ensures { result ≡ conditional_reply version stamp held }
{
    match held {
        None => Reply::Absent,
        Some(held) => {
            if held.version == version {
                Reply::Done(stamp)
            } else {
                Reply::Found(held.value, held.version)
            }
        }
    }
}

/// What a replace leaves of what is there.
fn replaced(version: u64, stamp: u64, value: Value, held: Held) -> Held
    ensures { result ≡ replaced version stamp value held }
{
    if held.version == version {
        Held {
            value,
            version: stamp,
        }
    } else {
        held
    }
}

/// What a delete leaves of what is there.
fn deleted(version: u64, held: Held) -> Option<Held>
    ensures { result ≡ deleted version held }
{
    if held.version == version {
        None
    } else {
        Some(held)
    }
}
