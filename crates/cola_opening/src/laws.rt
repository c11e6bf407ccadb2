//! Laws of the header of a file. Each function does nothing: its clauses are the law.
ghost use Rattle.std.specs.Prelude.{◌≡◌, ℕ, ◌+◌, ◌≤◌, List, length, take, Result, Some};
ghost use Rattle.cola_cell.specs.declared.format.Format.{Format as AnyFormat};
ghost use Rattle.cola_layout.specs.Header.{Fields, IsSpelling};
ghost use Rattle.cola_opening.specs.declared.fault.HeaderFault.{HeaderFault as AnyFault};
ghost use Rattle.cola_opening.specs.declared.reading.FoundHeader.{FoundHeader as AnyFound};
ghost use Rattle.cola_opening.specs.Judged.{file_size, HasHeader, IsSmall, IsNoStore, FindsHeader, IsHeaderOrFault};

use cola_device::Device;

/// The smallest files have 8,192 bytes in format One and 16,384 in format Two, and one level more doubles a file.
pub fn sizes_of_files()
    ensures one { file_size AnyFormat.One 3 ≡ 8192 }
    ensures two { file_size AnyFormat.Two 3 ≡ 16384 }
    ensures doubles { (format : AnyFormat) (bottom : ℕ) →
        file_size format (bottom + 1) ≡ file_size format bottom + file_size format bottom }
{}

/// A file that begins with a header has it with as many bytes as its cells have, and is too small with one byte fewer.
pub fn one_byte_fewer_is_small()
    ensures enough { (header : Fields) (bytes : List ℕ) → IsSpelling header (take 512 bytes) →
        length bytes ≡ file_size header.format header.bottom → HasHeader header bytes }
    ensures fewer { (header : Fields) (bytes : List ℕ) → IsSpelling header (take 512 bytes) →
        length bytes + 1 ≡ file_size header.format header.bottom → IsSmall bytes }
{}

/// A file that has a header is neither too small nor no store, and one that is no store is not too small. It has one header.
pub fn answers_exclude_each_other()
    ensures small { (header : Fields) (bytes : List ℕ) → HasHeader header bytes → ¬ IsSmall bytes }
    ensures none { (header : Fields) (bytes : List ℕ) → HasHeader header bytes → ¬ IsNoStore bytes }
    ensures apart { (bytes : List ℕ) → IsNoStore bytes → ¬ IsSmall bytes }
    ensures one { (header other : Fields) (bytes : List ℕ) → HasHeader header bytes →
        HasHeader other bytes → other ≡ header }
{}

/// The header of a file that has one is found, unless the device failed and its count of faults rose.
pub fn a_header_is_found<D: Device>()
    ensures { (header : Fields) (bytes head : List ℕ) (before now : D) (result : Result AnyFound AnyFault) →
        D.bytes before ≡ Some bytes → HasHeader header bytes →
        FindsHeader D.Device before head now result → IsHeaderOrFault header result }
{}
