// Files in memory by their paths.
ghost use Rattle.std.specs.Prelude.{◌≡◌, None, Some, option_copied, OnOk, OnErr};
ghost use Rattle.outlet_api.specs.Calls.{no_files, with_file};
ghost use Rattle.outlet_api.specs.Memory.{map_files};

use std::alloc::{AllocError, Global};
use std::collections::BTreeMap;
use std::marker::Model;

/// The bytes of a file. A clause sees them, and neither place nor capacity.
#[derive(Drop)]
pub(crate) struct Content {
    bytes: Vec<u8>,
}

impl Model for Content {
    ghost use Rattle.std.specs.Prelude.{ℕ, List};

    ghost Value = { List ℕ };

    ghost view = { λ content. content.bytes.items };
}

impl Content {
    fn new(bytes: Vec<u8>) -> Content
        ensures { result ≡ bytes.items }
    {
        Content { bytes }
    }

    fn as_slice(&self) -> &[u8]
        ensures { result.now ≡ self.now }
    {
        self.bytes.as_slice()
    }
}

/// Files by path, found in logarithmic time.
#[derive(Drop)]
pub(crate) struct FileMap {
    files: BTreeMap<String, Content>,
}

impl FileMap {
    /// No file.
    pub(crate) fn new(alloc: Global) -> FileMap
        ensures { map_files result ≡ no_files }
    {
        FileMap {
            files: BTreeMap::new(alloc),
        }
    }

    /// The bytes at a path.
    pub(crate) fn get(&self, path: &str) -> Option<&[u8]>
        ensures { option_copied result ≡ map_files self.now path.now }
    {
        match self.files.get(path) {
            Some(content) => Some(content.as_slice()),
            None => None,
        }
    }

    /// Makes these bytes stand at a path.
    pub(crate) fn put(
        &mut self,
        alloc: Global,
        path: &str,
        bytes: Vec<u8>,
    ) -> Result<(), AllocError>
        ensures done { OnOk result (map_files self.new ≡ with_file path.now (Some bytes.items) (map_files self.old)) }
        ensures kept { OnErr result (map_files self.new ≡ map_files self.old) }
    {
        let path = String::from_str(alloc, path)?;
        match self.files.insert(path, Content::new(bytes)) {
            Ok(_) => Ok(()),
            Err(_) => Err(AllocError),
        }
    }

    /// Makes nothing stand at a path.
    pub(crate) fn remove(&mut self, path: &str)
        ensures { map_files self.new ≡ with_file path.now None (map_files self.old) }
    {
        self.files.remove(path);
    }
}
