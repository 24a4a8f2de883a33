ghost use Rattle.std.specs.Prelude.{◌≡◌, IsSome, IsNone, is_some};
ghost use Rattle.std.specs.Option.{option_copied};
ghost use Rattle.std.specs.Str.{bytes_eq};
ghost use Rattle.std.specs.List.{position};
ghost use Rattle.std.specs.String.{string_bytes};
ghost use Rattle.run_ports.specs.Store.{with_file};
ghost use Rattle.run_ports.specs.FileList.{listed, first_files};

/// The place of the first file of this name.
fn place_of(files: &[(String, Vec<u8>)], name: &str) -> Option<usize>
    ensures { result ≡ position (λ file. bytes_eq name.now (string_bytes file.0)) files.now }
{
    files.iter().position(|file| name == file.0.as_str())
}

/// The bytes of the first file of this name.
pub(crate) fn bytes_of<'a>(files: &'a [(String, Vec<u8>)], name: &str) -> Option<&'a [u8]>
    ensures { option_copied result ≡ first_files (listed files.now) name.now }
{
    let place = place_of(files, name)?;
    Some(files[place].1.as_slice())
}

/// Whether there is a file of this name.
pub(crate) fn is_listed(files: &[(String, Vec<u8>)], name: &str) -> bool
    ensures { result ≡ is_some (first_files (listed files.now) name.now) }
{
    bytes_of(files, name).is_some()
}

/// Puts these bytes into the first file of this name. Where there is none, they are dropped.
pub(crate) fn replace(files: &mut Vec<(String, Vec<u8>)>, name: &str, bytes: Vec<u8>)
    ensures written { IsSome (first_files (listed files.old.items) name.now) →
        first_files (listed files.new.items) ≡
        with_file name.now bytes.items (first_files (listed files.old.items)) }
    ensures dropped { IsNone (first_files (listed files.old.items) name.now) →
        first_files (listed files.new.items) ≡ first_files (listed files.old.items) }
{
    if let Some(place) = place_of(files, name) {
        files[place].1 = bytes;
    }
}
