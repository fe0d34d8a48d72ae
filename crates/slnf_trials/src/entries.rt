//! The entries of worked journals.
use slnf_access::{Entry, Key, Reply, Request, Value};

/// Keys and values: the pins of both clients, the flows of both inside pairs, the claims of
/// three ports, and what they hold.
pub const PIN: Key = Key(0x0411_0000_0000_0000_0000_c000_0201_0fa0);

pub const OTHER_PIN: Key = Key(0x0411_0000_0000_0000_0000_c000_0201_0fa1);

pub const PINNED: Value = Value(0x0a01_0001_0035);

pub const OTHER_PINNED: Value = Value(0x0a01_0002_0035);

pub const FLOW: Key = Key(0x0106_0000_0000_0000_0000_0a00_0005_1388);

pub const OTHER_FLOW: Key = Key(0x0106_0000_0000_0000_0000_0a00_0006_1388);

pub const FIRST_PORT: Key = Key(0x0206_0000_0000_0000_0000_cb00_7101_9c40);

pub const SECOND_PORT: Key = Key(0x0206_0000_0000_0000_0000_cb00_7101_9c41);

pub const THIRD_PORT: Key = Key(0x0206_0000_0000_0000_0000_cb00_7101_9c42);

pub const FIRST_UDP_PORT: Key = Key(0x0211_0000_0000_0000_0000_cb00_7101_9c40);

pub const SECOND_UDP_PORT: Key = Key(0x0211_0000_0000_0000_0000_cb00_7101_9c41);

pub const CLAIM: Value = Value(0x0a00_0005_1388);

pub const LATER_CLAIM: Value = Value(0x0001_0a00_0005_1388);

pub const OTHER_CLAIM: Value = Value(0x0001_0a00_0006_1388);

pub const TO_FIRST: Value = Value(0xcb00_7101_9c40);

pub const TO_SECOND: Value = Value(0xcb00_7101_9c41);

pub const TO_THIRD: Value = Value(0xcb00_7101_9c42);

pub(crate) fn read(key: Key) -> Request {
    Request::Read { key }
}

pub(crate) fn put(key: Key, value: Value) -> Request {
    Request::PutIfAbsent { key, value }
}

pub(crate) fn delete(key: Key, version: u64) -> Request {
    Request::DeleteIf { key, version }
}

/// An entry by its stamp, incarnation and item in the one shard.
pub(crate) fn entry(numbers: [u64; 3], request: Request, reply: Reply) -> Entry {
    let [stamp, incarnation, item] = numbers;
    Entry {
        stamp,
        shard: 0,
        incarnation,
        item,
        request,
        reply,
    }
}
