ghost use Rattle.std.specs.Prelude.{◌≡◌};
ghost use Rattle.elf_image.specs.Groups as spec;

/// The groups of an image's symbols, in the order in which they stand.
#[derive(Clone, Copy, Debug, PartialEq, Eq)]
pub enum Group {
    /// Functions that other images don't see, by rising address.
    LocalFunctions,
    /// Values that other images don't see.
    LocalValues,
    /// Functions, by rising address.
    GlobalFunctions,
    /// Values.
    GlobalValues,
    /// What lies outside the image, at an absolute address.
    Outside,
}

impl Group {
    /// Its place in the order of groups.
    pub fn rank(self) -> u8
        ensures { result ≡ spec.rank self }
    {
        match self {
            Group::LocalFunctions => 0,
            Group::LocalValues => 1,
            Group::GlobalFunctions => 2,
            Group::GlobalValues => 3,
            Group::Outside => 4,
        }
    }

    /// The info byte of its symbols: binding and type.
    pub fn info(self) -> u64
        ensures { result ≡ spec.info_of self }
    {
        match self {
            Group::LocalFunctions => 0x02,
            Group::LocalValues => 0x01,
            Group::GlobalFunctions => 0x12,
            Group::GlobalValues => 0x11,
            Group::Outside => 0x10,
        }
    }

    /// The group that an info byte tells, if it tells one.
    pub fn of_info(info: u64) -> Option<Group>
        ensures { result ≡ spec.group_of info }
    {
        match info {
            0x02 => Some(Group::LocalFunctions),
            0x01 => Some(Group::LocalValues),
            0x12 => Some(Group::GlobalFunctions),
            0x11 => Some(Group::GlobalValues),
            0x10 => Some(Group::Outside),
            _ => None,
        }
    }

    /// The number of the section in which its symbols lie.
    pub fn section(self) -> u64
        ensures { result ≡ spec.section_of self }
    {
        match self {
            Group::LocalFunctions | Group::GlobalFunctions => 1,
            Group::LocalValues | Group::GlobalValues => 3,
            Group::Outside => 0xFFF1,
        }
    }

    pub fn is_function(self) -> bool
        ensures { result ≡ spec.is_function self }
    {
        matches!(self, Group::LocalFunctions | Group::GlobalFunctions)
    }

    pub fn is_local(self) -> bool
        ensures { result ≡ spec.is_local self }
    {
        matches!(self, Group::LocalFunctions | Group::LocalValues)
    }
}
