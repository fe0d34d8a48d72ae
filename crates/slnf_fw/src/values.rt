//! What is kept of a connection, as the store has it.
ghost use Rattle.std.specs.Prelude.{◌≡◌};
ghost use Rattle.slnf_fw.specs.Conns.{tracked_in, tracked_of};
ghost use Rattle.slnf_fw.specs.Machine.{fw_value};

use slnf_access::Value;
use slnf_box::Tracked;
use slnf_fw_table::State;
use slnf_keys::Conn;

/// The value that the store has of the connection.
#[tactic(auto, unfolding(slnf_keys::specs::Values::conn_number, slnf_keys::specs::Values::conn_of))]
pub fn fw_value(tracked: Tracked) -> Value
    ensures { result ≡ fw_value tracked }
{
    let conn = Conn {
        by_outside: tracked.by_outside,
        state: tracked.state.number(),
    };
    Value(conn.to_number())
}

/// The connection with this value, and `None` where the value is none of a connection.
#[tactic(auto, unfolding(slnf_keys::specs::Values::conn_number, slnf_keys::specs::Values::conn_of))]
pub fn tracked_of(value: Value) -> Option<Tracked>
    ensures { result ≡ tracked_of value.0 }
{
    Conn::from_number(value.0).and_then(tracked_in)
}

/// What is kept where the store has this value.
fn tracked_in(conn: Conn) -> Option<Tracked>
    ensures { result ≡ tracked_in conn }
{
    match State::from_number(conn.state) {
        None => None,
        Some(state) => Some(Tracked {
            by_outside: conn.by_outside,
            state,
        }),
    }
}
