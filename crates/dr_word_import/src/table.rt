//! Rows of a table, placed as devices.
use crate::device::{Device, Role, Usual};
use csv::{ReaderBuilder, StringRecord, Trim};
use dr_base::Text;
use std::alloc::{AllocError, AllocFailed, Global};
use std::io;
use std::io::Write;
use thiserror::Error;

/// Why a row isn't placed.
#[derive(Clone, Copy, PartialEq, Eq, Debug, Error)]
pub enum RowFault {
    #[error("its AE title isn't 1 to 16 printable characters without @, \" and \\")]
    Title,
    #[error("its host isn't a name or an address, without blanks")]
    Host,
    #[error("its port isn't a number from 1 to 65535")]
    Port,
    #[error("its role is none of scanner, archive, workstation and router")]
    Role,
    #[error("another row is the router already")]
    SecondRouter,
    #[error("Memory")]
    Memory,
}

impl From<AllocError> for RowFault {
    fn from(_: AllocError) -> RowFault {
        RowFault::Memory
    }
}

impl<T: Drop> From<AllocFailed<T>> for RowFault {
    fn from(_: AllocFailed<T>) -> RowFault {
        RowFault::Memory
    }
}

/// Where the columns stand.
#[derive(Clone, Copy)]
struct Columns {
    title: usize,
    host: usize,
    port: usize,
    modality: usize,
    role: usize,
}

/// The devices of a table, and whether each of its rows is one.
#[derive(Drop)]
pub struct DeviceTable {
    pub devices: Vec<Device>,
    pub is_whole: bool,
}

/// The place of the column of that name; names are compared without their case.
fn column(header: &StringRecord, name: &str) -> Option<usize> {
    for i in 0..header.len() {
        if let Some(field) = header.get(i) {
            if field.as_bytes().eq_ignore_ascii_case(name.as_bytes()) {
                return Some(i);
            }
        }
    }
    None
}

/// Where the columns stand by the table's first row.
fn columns_of(header: &StringRecord) -> Option<Columns> {
    let title = column(header, "AE title")?;
    let host = column(header, "host")?;
    let port = column(header, "port")?;
    let modality = column(header, "modality")?;
    let role = column(header, "role")?;
    Some(Columns {
        title,
        host,
        port,
        modality,
        role,
    })
}

/// The field of a row in that column; nothing where the row is too short.
fn field<'r>(row: &'r StringRecord, column: usize) -> &'r [u8] {
    match row.get(column) {
        Some(field) => field.as_bytes(),
        None => b"",
    }
}

/// Whether a byte may stand in a title.
fn is_of_title(byte: u8) -> bool {
    byte >= 32 && byte <= 126 && byte != b'"' && byte != b'\\' && byte != b'@'
}

/// Whether a byte may stand in a host's name or address.
fn is_of_host(byte: u8) -> bool {
    byte >= 33 && byte <= 126 && byte != b'"' && byte != b'\\'
}

/// Whether these are an AE title.
fn is_title(field: &[u8]) -> bool {
    !field.is_empty() && field.len() <= 16 && field.iter().all(|byte| is_of_title(*byte))
}

/// Whether these are a host.
fn is_host(field: &[u8]) -> bool {
    !field.is_empty() && field.len() <= 255 && field.iter().all(|byte| is_of_host(*byte))
}

/// Whether these are a port.
fn is_port(field: &[u8]) -> bool {
    if field.is_empty() || field.len() > 5 || field[0] == b'0' {
        return false;
    }
    let mut number: u64 = 0;
    for byte in field {
        if *byte < b'0' || *byte > b'9' {
            return false;
        }
        number = number
            .saturating_mul(10)
            .saturating_add(u64::from(*byte - b'0'));
    }
    number <= 65535
}

/// The role of that name.
fn role_of(field: &[u8]) -> Option<Role> {
    if field.eq_ignore_ascii_case(b"scanner") {
        return Some(Role::Scanner);
    }
    if field.eq_ignore_ascii_case(b"archive") || field.eq_ignore_ascii_case(b"workstation") {
        return Some(Role::Keeper);
    }
    if field.eq_ignore_ascii_case(b"router") {
        return Some(Role::Router);
    }
    None
}

/// What devices of that modality usually send.
fn usual_of(field: &[u8]) -> Usual {
    match field {
        b"CT" => Usual::Ct,
        b"MR" => Usual::Mr,
        b"US" => Usual::Us,
        b"XA" => Usual::Xa,
        b"MG" => Usual::Mg,
        _ => Usual::Images,
    }
}

/// The address of a host and a port.
fn address_of(alloc: Global, host: &[u8], port: &[u8]) -> Result<Text, AllocError> {
    let mut address = Vec::new(alloc);
    address.extend_from_slice(host)?;
    address.push(b':')?;
    address.extend_from_slice(port)?;
    Ok(Text::from_vec(address))
}

/// Whether a row is that of a device that only calls: a scanner that gives neither a host nor a
/// port.
fn only_calls(host: &[u8], port: &[u8], role: Role) -> bool {
    role.is_scanner() && host.is_empty() && port.is_empty()
}

/// Where the device of a row listens; nowhere where it only calls.
///
/// Errors: Host, Port, Memory.
fn place_in(alloc: Global, host: &[u8], port: &[u8], role: Role) -> Result<Option<Text>, RowFault> {
    if only_calls(host, port, role) {
        return Ok(None);
    }
    if !is_host(host) {
        return Err(RowFault::Host);
    }
    if !is_port(port) {
        return Err(RowFault::Port);
    }
    let address = address_of(alloc, host, port)?;
    Ok(Some(address))
}

/// A row as a device. Its role is looked at before its host and port, which a scanner may lack.
///
/// Errors: all but SecondRouter.
fn device_of(alloc: Global, columns: Columns, row: &StringRecord) -> Result<Device, RowFault> {
    let title = field(row, columns.title);
    if !is_title(title) {
        return Err(RowFault::Title);
    }
    let Some(role) = role_of(field(row, columns.role)) else {
        return Err(RowFault::Role);
    };
    let (host, port) = (field(row, columns.host), field(row, columns.port));
    let address = place_in(alloc, host, port, role)?;
    let name = Text::copy_of(alloc, title)?;
    Ok(Device {
        name,
        address,
        role,
        sends: usual_of(field(row, columns.modality)),
    })
}

/// The gate among these devices.
pub fn gate_of(devices: &[Device]) -> Option<&Text> {
    for it in devices {
        if it.role.is_router() {
            return Some(&it.name);
        }
    }
    None
}

/// Places a row.
///
/// Errors: each RowFault.
fn place(
    alloc: Global,
    columns: Columns,
    row: &StringRecord,
    devices: &mut Vec<Device>,
) -> Result<(), RowFault> {
    let device = device_of(alloc, columns, row)?;
    if device.role.is_router() && gate_of(devices.as_slice()).is_some() {
        return Err(RowFault::SecondRouter);
    }
    devices.push(device)?;
    Ok(())
}

/// Names a row that isn't placed.
fn name_row<E: Write>(row: &StringRecord, fault: RowFault, faults: &mut E) -> io::Result<()> {
    let line = match row.position() {
        Some(position) => position.line,
        None => 0,
    };
    writeln!(faults, "dr_router: line {line}: {fault}")
}

/// Places a row, and names it where that can't be done.
fn place_or_name<E: Write>(
    alloc: Global,
    columns: Columns,
    row: &StringRecord,
    table: &mut DeviceTable,
    faults: &mut E,
) -> io::Result<()> {
    match place(alloc, columns, row, &mut table.devices) {
        Ok(()) => Ok(()),
        Err(RowFault::Memory) => Err(io::Error::from(AllocError)),
        Err(fault) => {
            table.is_whole = false;
            name_row(row, fault, faults)
        }
    }
}

/// Where the columns stand by the first row; names what is missing.
fn begin<E: Write>(row: &StringRecord, faults: &mut E) -> io::Result<Option<Columns>> {
    let columns = columns_of(row);
    if columns.is_none() {
        writeln!(
            faults,
            "dr_router: the first line needs AE title, host, port, modality and role"
        )?;
    }
    Ok(columns)
}

/// Takes a row: the first one tells the columns, each other is placed. Answers the columns, where
/// rows may follow.
fn take_row<E: Write>(
    alloc: Global,
    columns: Option<Columns>,
    row: &StringRecord,
    table: &mut DeviceTable,
    faults: &mut E,
) -> io::Result<Option<Columns>> {
    match columns {
        Some(known) => {
            place_or_name(alloc, known, row, table, faults)?;
            Ok(columns)
        }
        None => {
            let first = begin(row, faults)?;
            table.is_whole = first.is_some();
            Ok(first)
        }
    }
}

/// Takes what was read as a row.
fn take_read<E: Write>(
    alloc: Global,
    columns: Option<Columns>,
    read: Result<StringRecord, csv::Error>,
    table: &mut DeviceTable,
    faults: &mut E,
) -> io::Result<Option<Columns>> {
    match read {
        Ok(row) => take_row(alloc, columns, &row, table, faults),
        Err(_) => {
            table.is_whole = false;
            writeln!(faults, "dr_router: the table can't be read to its end")?;
            Ok(None)
        }
    }
}

/// Takes all rows of a table, to the first that can't be read.
fn take_rows<E: Write>(
    alloc: Global,
    text: &[u8],
    table: &mut DeviceTable,
    faults: &mut E,
) -> io::Result<()> {
    let mut columns = None;
    let rows = ReaderBuilder::new()
        .has_headers(false)
        .flexible(true)
        .trim(Trim::All)
        .from_reader(alloc, text)
        .into_records();
    for read in rows {
        match take_read(alloc, columns, read, table, faults) {
            Ok(Some(known)) => columns = Some(known),
            Ok(None) => return Ok(()),
            Err(fault) => return Err(fault),
        }
    }
    Ok(())
}

/// The devices of a table, whose first row names its columns. Each row that isn't placed is named.
///
/// Errors: Stream.
pub fn read_table<E: Write>(alloc: Global, text: &[u8], faults: &mut E) -> io::Result<DeviceTable> {
    let mut table = DeviceTable {
        devices: Vec::new(alloc),
        is_whole: true,
    };
    match take_rows(alloc, text, &mut table, faults) {
        Ok(()) => Ok(table),
        Err(fault) => Err(fault),
    }
}
