// What a volume that was found sound holds, each field read where it lies: a file and a client are values that know their volume and
// that they exist there. The contracts are about the view and the bytes in a place: `table`, `header` and `record` alone lend a
// control sector.
ghost use Rattle.std.specs.Prelude.{◌≡◌, true, ◌≤◌, ◌<◌, length, get_or, is_some, IfSome};
ghost use Rattle.sector.specs.Layout.{sector_limit, entry_limit};
ghost use Rattle.sector.specs.Walks.{entries_left};
ghost use Rattle.volume.specs.Places.{IsClient, IsFile, is_client, is_file, file_at, header_sector, table_place, record_place, header_place};
ghost use Rattle.volume.specs.Volumes.{bytes_at, view};
ghost use Rattle.volume.specs.Sound.{sound};
ghost use Rattle.volume.specs.WellFormed.{TableFormed, WellFormed};

use interface::{ClientNumber, FileNumber};
use sector::{Entries, File};

// A volume whose length and table were found sound. It is enough for its files and their headers' bytes.
// The three volumes are three types, each known to be something else: one type would name its fact at every use, and be no
// plainer. What lends a volume derives Clone and Copy alone: nobody compares two or prints one.
#[derive(Clone, Copy)]
pub struct TabledVolume<'a> {
    pub bytes: &'a [u8],
    ghost formed: { TableFormed bytes.now },
}

// A file of such a volume.
#[derive(Clone, Copy)]
pub struct VolumeFile<'a> {
    pub volume: TabledVolume<'a>,
    pub number: u8,
    ghost listed: { IsFile (view volume.bytes.now).table number },
}

impl<'a> TabledVolume<'a> {
    // The table's bytes.
    pub fn table(self) -> &'a [u8; 256]
        ensures { result.now ≡ bytes_at (view self.entry.bytes.now).table self.entry.bytes.now table_place }
    {
        sector::part(self.bytes, 0)
    }

    // The number of files.
    pub fn files(self) -> u8
        ensures { result ≡ length (view self.entry.bytes.now).table.files }
    {
        sector::table_files(self.table())
    }

    // File f, which there is. Ruled out: file 1 in its place (`must-fail/file_1_handed_on`); a file of another volume.
    pub fn file(self, f: u8) -> VolumeFile<'a>
        requires { IsFile (view self.bytes.now).table f }
        ensures { (result.number ≡ f) × (result.volume.bytes.now ≡ self.entry.bytes.now) }
    {
        VolumeFile {
            volume: self,
            number: f,
        }
    }

    // File f, if there is one. Ruled out: the file after the last one found (`must-fail/one_file_too_many`); another file than f.
    pub fn find_file(self, f: u8) -> Option<VolumeFile<'a>>
        ensures found { is_some result ≡ is_file (view self.entry.bytes.now).table f }
        ensures same { IfSome result (λ x. (x.number ≡ f) × (x.volume.bytes.now ≡ self.entry.bytes.now)) }
    {
        if f < 1 {
            return None;
        }
        if self.files() < f {
            return None;
        }
        Some(self.file(f))
    }
}

impl<'a> VolumeFile<'a> {
    // Its number, for a session. Ruled out: file 1's (`must-fail/file_1_in_session`); 0.
    pub fn in_session(self) -> FileNumber
        ensures { result.number ≡ self.entry.number }
    {
        let f = self.number;
        FileNumber { number: f }
    }

    // Its pages and slots. Ruled out: the next file's (`must-fail/next_files_shape`); pages and slots changed over.
    pub fn shape(self) -> File
        ensures { result ≡ file_at (view self.entry.volume.bytes.now).table self.entry.number }
    {
        sector::file(self.volume.table(), usize::from(self.number) - 1)
    }

    // The sector of its header. Ruled out: the next file's (`must-fail/next_files_header`); its first slot's.
    pub fn header_sector(self) -> usize
        ensures { (result ≡ header_sector (view self.entry.volume.bytes.now).table self.entry.number) × (result < sector_limit) }
    {
        sector::file_header(self.volume.table(), usize::from(self.number) - 1)
    }

    // The bytes of its header.
    pub fn header(self) -> &'a [u8; 256]
        ensures { result.now ≡ bytes_at (view self.entry.volume.bytes.now).table self.entry.volume.bytes.now (header_place self.entry.number) }
    {
        sector::part(self.volume.bytes, self.header_sector())
    }

    // The client that holds it, or 0. It stays a number: the header has it, the listing prints it, and it is compared with a client's
    // number more often than with 0.
    pub fn holder(self) -> u8
        ensures { result ≡ ((view self.entry.volume.bytes.now).headers self.entry.number).holder }
    {
        sector::header_holder(self.header())
    }

    // The slots of its pages. Ruled out: the next file's (`must-fail/next_files_header`); the bytes after them, as far as the slots
    // (`must-fail/map_of_slots`).
    pub fn map(self) -> &'a [u8]
        ensures { result.now ≡ ((view self.entry.volume.bytes.now).headers self.entry.number).map }
    {
        sector::map(self.header(), self.shape().pages)
    }

    // The slot that its map has for page p.
    pub fn mapped_slot(self, p: u8) -> u8
        requires { p < (file_at (view self.volume.bytes.now).table self.number).pages }
        ensures { result ≡ get_or ((view self.entry.volume.bytes.now).headers self.entry.number).map p 0 }
    {
        sector::map_slot(self.header(), usize::from(p))
    }
}

// A volume that was found sound, and may have been stored in by the calls since.
#[derive(Clone, Copy)]
pub struct FormedVolume<'a> {
    pub bytes: &'a [u8],
    ghost formed: { WellFormed bytes.now },
}

// A client of such a volume.
#[derive(Clone, Copy)]
pub struct VolumeClient<'a> {
    pub volume: FormedVolume<'a>,
    pub number: u8,
    ghost listed: { IsClient (view volume.bytes.now).table number },
}

impl<'a> FormedVolume<'a> {
    // The same volume, of which the table alone is known to be sound. Ruled out: a part of it (`must-fail/part_tabled`); another one.
    pub fn tabled(self) -> TabledVolume<'a>
        ensures { result.bytes.now ≡ self.entry.bytes.now }
    {
        TabledVolume { bytes: self.bytes }
    }

    // The number of clients.
    pub fn clients(self) -> u8
        ensures { result ≡ (view self.entry.bytes.now).table.clients }
    {
        sector::table_clients(self.tabled().table())
    }

    // Client k, which there is. Ruled out: client 1 in its place (`must-fail/client_1_handed_on`); a client of another volume.
    pub fn client(self, k: u8) -> VolumeClient<'a>
        requires { IsClient (view self.bytes.now).table k }
        ensures { (result.number ≡ k) × (result.volume.bytes.now ≡ self.entry.bytes.now) }
    {
        VolumeClient {
            volume: self,
            number: k,
        }
    }

    // Client k, if there is one. Ruled out: client 0 found (`must-fail/client_0_found`); another client than k.
    // `find_file` is like it: one function over both would take the count, the maker and the fact as parameters, and be no
    // plainer. So it is with `file`, `client` and `in_session`.
    pub fn find_client(self, k: u8) -> Option<VolumeClient<'a>>
        ensures found { is_some result ≡ is_client (view self.entry.bytes.now).table k }
        ensures same { IfSome result (λ c. (c.number ≡ k) × (c.volume.bytes.now ≡ self.entry.bytes.now)) }
    {
        if k < 1 {
            return None;
        }
        if self.clients() < k {
            return None;
        }
        Some(self.client(k))
    }
}

impl<'a> VolumeClient<'a> {
    // Its number, for a session. Ruled out: client 1's (`must-fail/client_1_in_session`); 0.
    pub fn in_session(self) -> ClientNumber
        ensures { result.number ≡ self.entry.number }
    {
        let k = self.number;
        ClientNumber { number: k }
    }

    // The bytes of its intentions record.
    pub fn record(self) -> &'a [u8; 256]
        ensures { result.now ≡ bytes_at (view self.entry.volume.bytes.now).table self.entry.volume.bytes.now (record_place self.entry.number) }
    {
        sector::part(self.volume.bytes, usize::from(self.number))
    }

    // Its record's state.
    pub fn state(self) -> u8
        ensures { result ≡ ((view self.entry.volume.bytes.now).records self.entry.number).state }
    {
        sector::record_state(self.record())
    }

    // The number of its record's entries.
    pub fn entry_count(self) -> u8
        ensures { (result ≡ length ((view self.entry.volume.bytes.now).records self.entry.number).entries) × (result ≤ entry_limit) }
    {
        sector::record_count(self.record())
    }

    // The entries, in order. Ruled out: none of them (`must-fail/no_entries_given`); those of another client.
    pub fn entries(self) -> Entries<'a>
        ensures { entries_left result ≡ ((view self.entry.volume.bytes.now).records self.entry.number).entries }
    {
        Entries::of(self.record())
    }
}

// A volume that was found sound.
#[derive(Clone, Copy)]
pub struct SoundVolume<'a> {
    pub bytes: &'a [u8],
    ghost sound: { sound bytes.now ≡ true },
}

impl<'a> SoundVolume<'a> {
    // The same volume, for reading what it holds. Ruled out: a part of it (`must-fail/part_formed`); another one.
    pub fn formed(self) -> FormedVolume<'a>
        ensures { result.bytes.now ≡ self.entry.bytes.now }
    {
        FormedVolume { bytes: self.bytes }
    }
}
