//! The laws of the crates that this one hands on. Each function's clause is the law; it does nothing.

pub use my_command::laws::gtid_block_has_this_length;
pub use my_frame::laws::{
    fault_is_found, front_is_sound, front_stays, numbers_are_read, one_fault, one_reading,
    payload_is_found, reading_takes_bytes, written_is_read,
};
pub use my_handshake::laws::{attributes_stay_in_order, greeting_is_read, switch_is_read};
pub use my_reply::laws::{
    column_count_is_read, column_is_read, eof_is_read, err_is_read, event_is_read, ok_is_read,
    replies_are_read, written_packets_are_read,
};
