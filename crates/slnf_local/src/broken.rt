/// The first rule that a list of entries breaks, and the least place where it does. Entries are counted from 1.
#[derive(Clone, Copy, Debug, PartialEq, Eq)]
pub enum Broken {
    /// Rule 2: this entry doesn't come after the one before it, or isn't in its key's shard.
    Order(u64),
    /// Rule 3: the reply of this entry isn't the map's.
    Reply(u64),
    /// Rule 4: this entry isn't expected.
    Unexpected(u64),
    /// Rule 5: this incarnation hasn't ended.
    Unended(u64),
}
