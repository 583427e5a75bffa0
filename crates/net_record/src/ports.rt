//! Which lane a writer names by a port.

ghost use Rattle.std.specs.Prelude.{◌≡◌, ◌+◌, ◌<◌, ◌≤◌, ◌^◌, [], ◌∷◌, ◌++◌, ℕ, length, slice_index_or, option_map, IfOk, OnOk, OnErr};
ghost use Rattle.std.specs.BTreeMap.{get};
ghost use Rattle.std.specs.Ordering.{nat_cmp};
ghost use Rattle.net_record.specs.Wires.{lane_of};
ghost use Rattle.net_record.specs.Ports.{port_if, ports_of, lane_at_port, lane_with, ArePortsOf};

use crate::wire::Wire;
use or_base::NoMemory;
use std::alloc::Global;
use std::collections::BTreeMap;
use std::marker::Model;

/// A port of a writer, and the number of the lane that it names by it.
#[derive(Clone, Copy, Debug, PartialEq, Eq)]
pub struct Port {
    pub port: u32,
    pub lane: u32,
}

/// The ports of one writer, in the order of its lanes, and the first lane of each by its port.
#[derive(Drop)]
struct WriterPorts {
    ports: Vec<Port>,
    lanes: BTreeMap<u32, u32>,
}

impl Model for WriterPorts {
    ghost use Rattle.std.specs.Prelude.{◌≡◌, List, ℕ};
    ghost use Rattle.std.specs.BTreeMap.{get};
    ghost use Rattle.std.specs.Ordering.{nat_cmp};
    ghost use Rattle.net_record.specs.declared.ports.Port.{Port};
    ghost use Rattle.net_record.specs.Ports.{lane_at_port};

    ghost Value = { List Port };

    ghost view = { λ own. own.ports.items };

    ghost invariant = { λ own. (port : ℕ) → get nat_cmp own.lanes port ≡ lane_at_port own.ports.items port };
}

/// Adds the lane of a port, unless the port has one.
fn add_lane(lanes: &mut BTreeMap<u32, u32>, own: Port) -> Result<(), NoMemory>
    ensures ok { OnOk result ((port : ℕ) → get nat_cmp lanes.new port ≡ lane_with (get nat_cmp lanes.old port) own port) }
    ensures err { OnErr result ((port : ℕ) → get nat_cmp lanes.new port ≡ get nat_cmp lanes.old port) }
{
    if !lanes.contains_key(&own.port) {
        lanes.insert(own.port, own.lane)?;
    }
    Ok(())
}

impl WriterPorts {
    /// No ports yet.
    fn new(alloc: Global) -> WriterPorts
        ensures { result ≡ [] }
    {
        WriterPorts {
            ports: Vec::new(alloc),
            lanes: BTreeMap::new(alloc),
        }
    }

    /// One port more. Out of memory the ports stay as they were.
    fn add(&mut self, port: Port) -> Result<(), NoMemory>
        ensures { OnOk result (self.new ≡ self.old ++ port ∷ []) }
    {
        self.ports.reserve(1)?;
        add_lane(&mut self.lanes, port)?;
        self.ports.push_reserved(port);
        Ok(())
    }

    /// The lane of a port, if there is one.
    fn lane(&self, port: u32) -> Option<u32>
        ensures { result ≡ lane_at_port self.now port }
    {
        self.lanes.get(&port).copied()
    }
}

/// Gives each writer up to this one a place.
#[tactic(auto, using(crate::proofs::Ported::place_more))]
fn reach(alloc: Global, ports: &mut Vec<WriterPorts>, writer: usize) -> Result<(), NoMemory>
    ensures there { OnOk result (writer < length ports.new.items) }
    ensures same { OnOk result ((other : ℕ) → slice_index_or ports.new.items other [] ≡ slice_index_or ports.old.items other []) }
{
    while ports.len() <= writer {
        ports.push(WriterPorts::new(alloc))?;
    }
    Ok(())
}

/// Adds a lane to the ports of its writer.
#[tactic(auto, using(crate::proofs::Ported::port_added))]
fn add_port(
    alloc: Global,
    ports: &mut Vec<WriterPorts>,
    number: u32,
    wire: Wire,
) -> Result<(), NoMemory>
    ensures { OnOk result ((writer : ℕ) → slice_index_or ports.new.items writer []
        ≡ slice_index_or ports.old.items writer [] ++ port_if number wire writer) }
{
    reach(alloc, ports, wire.writer as usize)?;
    let own = &mut ports[wire.writer as usize];
    own.add(Port {
        port: wire.port,
        lane: number,
    })?;
    Ok(())
}

/// The ports of each writer.
#[tactic(auto, using(crate::proofs::Ported::ports_more))]
fn ports_of_all(alloc: Global, wires: &[Wire]) -> Result<Vec<WriterPorts>, NoMemory>
    requires { length wires.now < 2 ^ 32 }
    ensures { IfOk result (λ ports. ArePortsOf wires.now ports.items) }
{
    let mut ports = Vec::new(alloc);
    for (number, wire) in wires.iter().enumerate() {
        add_port(alloc, &mut ports, number as u32, *wire)?;
    }
    Ok(ports)
}

/// The ends of the lanes, by their numbers. Contracts see the list of them.
#[derive(Drop)]
pub struct Wiring {
    wires: Vec<Wire>,
    ports: Vec<WriterPorts>,
}

impl Model for Wiring {
    ghost use Rattle.std.specs.Prelude.{List};
    ghost use Rattle.net_record.specs.declared.wire.Wire.{Wire};
    ghost use Rattle.net_record.specs.Ports.{ArePortsOf};

    ghost Value = { List Wire };

    ghost view = { λ wiring. wiring.wires.items };

    ghost invariant = { λ wiring. ArePortsOf wiring.wires.items wiring.ports.items };
}

impl Wiring {
    /// The wiring of these lanes.
    pub fn new(alloc: Global, wires: Vec<Wire>) -> Result<Wiring, NoMemory>
        requires { length wires.items < 2 ^ 32 }
        ensures { IfOk result (λ wiring. wiring ≡ wires.items) }
    {
        let ports = ports_of_all(alloc, wires.as_slice())?;
        Ok(Wiring { wires, ports })
    }

    /// How many lanes there are.
    pub fn len(&self) -> usize
        ensures { result ≡ length self.now }
    {
        self.wires.len()
    }

    /// The actor that reads from a lane.
    pub fn reader(&self, lane: usize) -> u32
        requires { lane < length self.now }
        ensures { (d : _) → result ≡ (slice_index_or self.now lane d).reader }
    {
        self.wires.as_slice()[lane].reader
    }

    /// The number of the lane that a writer names by a port, if there is one.
    #[tactic(auto, using(crate::proofs::Ported::finding))]
    pub fn lane(&self, writer: u32, port: u32) -> Option<u32>
        ensures { result ≡ lane_of self.now writer port }
    {
        match self.ports.as_slice().get(writer as usize) {
            Some(own) => own.lane(port),
            None => None,
        }
    }
}
