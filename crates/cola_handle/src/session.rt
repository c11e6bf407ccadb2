//! What lies behind an open handle.
use crate::marks::LentDevice;
use cola_kv::Kv;

/// An open store in lent bytes.
#[derive(Drop)]
pub struct Session {
    pub kv: Kv<LentDevice>,
}
