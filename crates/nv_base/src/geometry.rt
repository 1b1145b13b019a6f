// The shape of a flash.
ghost use Rattle.std.specs.Prelude.{◌≡◌, ◌<◌, ◌≤◌, ◌+◌, ◌*◌, ◌↔◌, IsTrue};
ghost use Rattle.nv_base.specs.Geometry.{IsLegal, IsPageSize, HasBanks, size_of, pages_of_sector, sectors_of_bank, pages_of_bank, size_of_bank, address_of_page};

/// The shape of a flash: bytes of a page, bytes of a sector, and sectors of the whole flash, which its banks share
/// equally.
#[derive(Clone, Copy)]
pub struct Geometry {
    pub page: u32,
    pub sector: u32,
    pub sectors: u32,
}

impl Geometry {
    /// Whether the stack takes this shape: pages of 16, 32, 64, 128 or 256 bytes, sectors of whole pages, four or more,
    /// and up to 65,536 bytes, an even number of sectors from 2 to 64, and so at most 4,194,304 bytes.
    pub fn is_legal(&self) -> bool
        ensures { IsTrue result ↔ IsLegal self.now }
    {
        is_page_size(self.page)
            && self.sector % self.page == 0
            && 4 * self.page <= self.sector
            && self.sector <= 65536
            && self.sectors % 2 == 0
            && self.sectors >= 2
            && self.sectors <= 64
    }

    /// Whether so many banks, 2 to 8, share the sectors equally.
    pub fn has_banks(&self, banks: u32) -> bool
        ensures { IsTrue result ↔ HasBanks self.now banks }
    {
        banks >= 2 && banks <= 8 && self.sectors % banks == 0
    }

    /// Bytes of the whole flash.
    pub fn size(&self) -> u32
        requires { IsLegal self.now }
        ensures { result ≡ size_of self.now }
    {
        self.sector * self.sectors
    }

    /// Pages of one sector.
    pub fn sector_pages(&self) -> u32
        requires { IsLegal self.now }
        ensures value { result ≡ pages_of_sector self.now }
        ensures whole { result * self.now.page ≡ self.now.sector }
        ensures least { 4 ≤ result }
    {
        self.sector / self.page
    }

    /// Sectors of one of so many banks.
    pub fn bank_sectors(&self, banks: u32) -> u32
        requires legal { IsLegal self.now }
        requires banks { HasBanks self.now banks }
        ensures value { result ≡ sectors_of_bank self.now banks }
        ensures whole { result * banks ≡ self.now.sectors }
        ensures least { 1 ≤ result }
    {
        self.sectors / banks
    }

    /// Pages of one of so many banks.
    pub fn bank_pages(&self, banks: u32) -> u32
        requires legal { IsLegal self.now }
        requires banks { HasBanks self.now banks }
        ensures value { result ≡ pages_of_bank self.now banks }
        ensures whole { result * self.now.page * banks ≡ size_of self.now }
        ensures least { 4 ≤ result }
    {
        self.sector * self.sectors / banks / self.page
    }

    /// Bytes of one of so many banks.
    pub fn bank_size(&self, banks: u32) -> u32
        requires legal { IsLegal self.now }
        requires banks { HasBanks self.now banks }
        ensures value { result ≡ size_of_bank self.now banks }
        ensures pages { result ≡ pages_of_bank self.now banks * self.now.page }
        ensures whole { result * banks ≡ size_of self.now }
    {
        self.sectors / banks * self.sector
    }

    /// The address of a page of one of so many banks, in bytes.
    pub fn page_address(&self, banks: u32, bank: u32, page: u32) -> u32
        requires legal { IsLegal self.now }
        requires banks { HasBanks self.now banks }
        requires bank { bank < banks }
        requires page { page < pages_of_bank self.now banks }
        ensures value { result ≡ address_of_page self.now banks bank page }
        ensures inside { result + self.now.page ≤ size_of self.now }
    {
        (bank * self.bank_pages(banks) + page) * self.page
    }
}

fn is_page_size(page: u32) -> bool
    ensures { IsTrue result ↔ IsPageSize page }
{
    [16, 32, 64, 128, 256].contains(&page)
}
