//! Reads hosts, and whole certificates.

ghost use Rattle.std.specs.Prelude.{◌≡◌, Some};
ghost use Rattle.wire_bytes.specs.Grammar.{field};
ghost use Rattle.wire_bytes.specs.GrammarReading.{fault_offset};
ghost use Rattle.certificates.specs.Layout.{host_grammar, hosts_grammar, certificate_grammar};
ghost use Rattle.certificates.specs.Telling.{ReadsTelling, AreIn, IsHost, IsCertificate, IsRead};

use crate::bytes::{CertificateBytes, HostBytes, Run};
use crate::records::{read_items, read_pool};
use crate::tables::{passed, read_ids, read_tables};
use wire_bytes::{FieldFault, Reader};

/// Reads a host's part.
fn read_parts<'a>(reader: &mut Reader<'a>) -> Result<HostBytes<'a>, FieldFault>
    ensures { ReadsTelling IsHost host_grammar reader.old result reader.new }
{
    let name = match reader.read_text8() {
        Ok(name) => name,
        Err(fault) => return Err(fault),
    };
    let tables = match read_tables(reader) {
        Ok(tables) => tables,
        Err(fault) => return Err(fault),
    };
    let partial = match read_ids(reader) {
        Ok(partial) => partial,
        Err(fault) => return Err(fault),
    };
    match read_items(reader) {
        Ok(items) => Ok(HostBytes {
            name,
            tables,
            partial,
            items,
        }),
        Err(fault) => Err(fault),
    }
}

/// Reads a host's part, which breaks at its first byte.
pub fn read_host<'a>(reader: &mut Reader<'a>) -> Result<HostBytes<'a>, FieldFault>
    ensures { ReadsTelling IsHost (field host_grammar.Fits host_grammar.print) reader.old result reader.new }
{
    let start = reader.offset();
    match read_parts(reader) {
        Ok(host) => Ok(host),
        Err(_) => Err(FieldFault::Foreign(start)),
    }
}

/// Reads hosts, behind their number.
fn read_hosts<'a>(reader: &mut Reader<'a>) -> Result<Run<'a>, FieldFault>
    ensures { ReadsTelling (AreIn host_grammar.print) hosts_grammar reader.old result reader.new }
{
    let count = match reader.read_u32() {
        Ok(count) => count,
        Err(fault) => return Err(fault),
    };
    let start = reader.copy();
    for _i in 0..count {
        match read_host(reader) {
            Ok(_) => {}
            Err(fault) => return Err(fault),
        }
    }
    let bytes = passed(&start, reader);
    Ok(Run {
        count: u64::from(count),
        bytes,
    })
}

/// Reads the body of a certificate.
fn read_body<'a>(reader: &mut Reader<'a>) -> Result<CertificateBytes<'a>, FieldFault>
    ensures { ReadsTelling IsCertificate certificate_grammar reader.old result reader.new }
{
    match reader.read_magic(b"RCK1") {
        Ok(()) => {}
        Err(fault) => return Err(fault),
    }
    match reader.read_u64() {
        Ok(_) => {}
        Err(fault) => return Err(fault),
    }
    let hosts = match read_hosts(reader) {
        Ok(hosts) => hosts,
        Err(fault) => return Err(fault),
    };
    match read_pool(reader) {
        Ok(pool) => Ok(CertificateBytes { hosts, pool }),
        Err(fault) => Err(fault),
    }
}

/// The offset that a fault tells.
fn offset_of(fault: FieldFault) -> usize
    ensures { fault_offset fault ≡ Some result }
{
    match fault {
        FieldFault::Ended(offset) => offset,
        FieldFault::Foreign(offset) => offset,
    }
}

/// The parts of a certificate. Refused exactly if the bytes are none, with the first offset at which they break the layout.
pub fn read_certificate(file: &[u8]) -> Result<CertificateBytes<'_>, usize>
    ensures { IsRead file.now result }
{
    let mut reader = match Reader::of_sealed(file) {
        Ok(reader) => reader,
        Err(fault) => return Err(fault.0),
    };
    let certificate = match read_body(&mut reader) {
        Ok(certificate) => certificate,
        Err(fault) => return Err(offset_of(fault)),
    };
    match reader.finish() {
        Ok(()) => Ok(certificate),
        Err(fault) => Err(fault.0),
    }
}
