//! The parts of a certificate, as its bytes have them.

/// Things of a list, one behind the other: how many, and their bytes.
#[derive(Clone, Copy, Drop)]
pub struct Run<'a> {
    pub count: u64,
    pub bytes: &'a [u8],
}

/// A table: its number, and its ids.
#[derive(Clone, Copy, Drop)]
pub struct TableBytes<'a> {
    pub number: u32,
    pub ids: &'a [[u8; 18]],
}

/// A host: its name, its tables, the ids of its partial, and its counts.
#[derive(Clone, Copy, Drop)]
pub struct HostBytes<'a> {
    pub name: &'a [u8],
    pub tables: Run<'a>,
    pub partial: &'a [[u8; 18]],
    pub items: &'a [[u8; 26]],
}

/// A certificate: its hosts, and the files of the pool.
#[derive(Clone, Copy, Drop)]
pub struct CertificateBytes<'a> {
    pub hosts: Run<'a>,
    pub pool: &'a [[u8; 43]],
}
