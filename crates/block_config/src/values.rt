// The values that an item's members have, by the keys that an item may have.
ghost use Rattle.std.specs.Prelude.{◌≡◌};
ghost use Rattle.serde_json.specs.Data.{Members, no_members, member};
ghost use Rattle.serde_json.specs.View.{view, members_view};
ghost use Rattle.block_config.specs.Values.{data_or, no_values, AreValues};

use serde_json::{Map, Value};

/// What each key of an item has, and whether no other key stands in it.
#[derive(Clone, Copy)]
pub struct Values<'v> {
    pub known: bool,
    pub kind: Option<&'v Value>,
    pub length: Option<&'v Value>,
    pub priority: Option<&'v Value>,
    pub ram: Option<&'v Value>,
    pub defaults: Option<&'v Value>,
    pub nv: Option<&'v Value>,
    pub rom: Option<&'v Value>,
    pub readall: Option<&'v Value>,
    pub writeall: Option<&'v Value>,
    pub once: Option<&'v Value>,
    pub protected: Option<&'v Value>,
    pub resistant: Option<&'v Value>,
    pub reads: Option<&'v Value>,
    pub writes: Option<&'v Value>,
    pub repeats: Option<&'v Value>,
    pub device: Option<&'v Value>,
}

impl<'v> Values<'v> {
    /// Those of an object without members.
    fn none() -> Values<'v>
        ensures { result ≡ no_values }
    {
        Values {
            known: true,
            kind: None,
            length: None,
            priority: None,
            ram: None,
            defaults: None,
            nv: None,
            rom: None,
            readall: None,
            writeall: None,
            once: None,
            protected: None,
            resistant: None,
            reads: None,
            writes: None,
            repeats: None,
            device: None,
        }
    }

    /// Those of a value; one that is no object has none, and no keys that an item has.
    pub fn of(value: &'v Value) -> Values<'v>
        ensures { AreValues result (view value.now) }
    {
        match value.as_object() {
            Some(members) => Values::among(members),
            None => Values {
                known: false,
                ..Values::none()
            },
        }
    }

    /// Those of these members, in one walk.
    fn among(members: &'v Map<String, Value>) -> Values<'v>
        ensures { data_or result no_members ≡ data_or no_values (members_view members.now.entries) }
    {
        let mut values = Values::none();
        for (key, value) in members.iter() {
            values.find(key, value);
        }
        values
    }

    /// Takes a member that comes behind those that were found.
    fn find(&mut self, key: &str, value: &'v Value)
        ensures { (rest : Members) → data_or self.new rest ≡ data_or self.old (member key.now (view value.now) rest) }
    {
        match key {
            "kind" => self.kind = self.kind.or(Some(value)),
            "length" => self.length = self.length.or(Some(value)),
            "priority" => self.priority = self.priority.or(Some(value)),
            "ram" => self.ram = self.ram.or(Some(value)),
            "defaults" => self.defaults = self.defaults.or(Some(value)),
            "nv" => self.nv = self.nv.or(Some(value)),
            "rom" => self.rom = self.rom.or(Some(value)),
            "readall" => self.readall = self.readall.or(Some(value)),
            "writeall" => self.writeall = self.writeall.or(Some(value)),
            "once" => self.once = self.once.or(Some(value)),
            "protected" => self.protected = self.protected.or(Some(value)),
            "resistant" => self.resistant = self.resistant.or(Some(value)),
            "reads" => self.reads = self.reads.or(Some(value)),
            "writes" => self.writes = self.writes.or(Some(value)),
            "repeats" => self.repeats = self.repeats.or(Some(value)),
            "device" => self.device = self.device.or(Some(value)),
            _ => self.known = false,
        }
    }
}
