//! What the numbers keep apart, as laws of their definitions.

ghost use Rattle.std.specs.Prelude.{◌≡◌, ◌≢◌};
ghost use Rattle.slnf_keys.specs.Keys.{flow_key_number, port_key_number, conn_key_number, pin_key_number};
ghost use Rattle.slnf_keys.specs.Values.{flow_to_number, claim_number, conn_number, pin_number};

use crate::keys::{ConnKey, FlowKey, PinKey, PortKey};
use crate::values::{Claim, Conn, FlowTo, Pin};

/// Keys of different types have different numbers.
pub fn types_apart(flow: FlowKey, port: PortKey, conn: ConnKey, pin: PinKey)
    ensures flow_port { flow_key_number flow ≢ port_key_number port }
    ensures flow_conn { flow_key_number flow ≢ conn_key_number conn }
    ensures flow_pin { flow_key_number flow ≢ pin_key_number pin }
    ensures port_conn { port_key_number port ≢ conn_key_number conn }
    ensures port_pin { port_key_number port ≢ pin_key_number pin }
    ensures conn_pin { conn_key_number conn ≢ pin_key_number pin }
{}

/// Two flows' keys with one number are one.
pub fn flow_keys_apart(left: FlowKey, right: FlowKey)
    ensures { flow_key_number left ≡ flow_key_number right → left ≡ right }
{}

/// Two outside pairs' keys with one number are one.
pub fn port_keys_apart(left: PortKey, right: PortKey)
    ensures { port_key_number left ≡ port_key_number right → left ≡ right }
{}

/// Two connections' keys with one number are one.
pub fn conn_keys_apart(left: ConnKey, right: ConnKey)
    ensures { conn_key_number left ≡ conn_key_number right → left ≡ right }
{}

/// Two clients' keys with one number are one.
pub fn pin_keys_apart(left: PinKey, right: PinKey)
    ensures { pin_key_number left ≡ pin_key_number right → left ≡ right }
{}

/// Two flows' records with one number are one.
pub fn flow_tos_apart(left: FlowTo, right: FlowTo)
    ensures { flow_to_number left ≡ flow_to_number right → left ≡ right }
{}

/// Two claims with one number are one.
pub fn claims_apart(left: Claim, right: Claim)
    ensures { claim_number left ≡ claim_number right → left ≡ right }
{}

/// Two connections with one number are one.
pub fn conns_apart(left: Conn, right: Conn)
    ensures { conn_number left ≡ conn_number right → left ≡ right }
{}

/// Two pins with one number are one.
pub fn pins_apart(left: Pin, right: Pin)
    ensures { pin_number left ≡ pin_number right → left ≡ right }
{}
