use crate::complaint::Complaint;
use std::fs;

/// The bytes of a file.
pub(crate) fn read_file<'w>(rt: &HostRuntime, path: &'w str) -> Result<Vec<u8>, Complaint<'w>> {
    fs::read(rt, path).map_err(|cause| Complaint::Unreadable { path, cause })
}
