// A partition's ports and connections.
ghost use Rattle.std.specs.Prelude.{◌≡◌, ◌+◌, ◌≤◌, false, IsOk, OnOk, OnErr, slice_get};
ghost use Rattle.std.specs.FinMap as map;

use crate::Partition;
use hv_ports::{Conn, Port};
use std::alloc::{AllocError, Allocator};

// The ports. Each call requires and promises what the port table's call does.
impl<A: Allocator> Partition<A> {
    /// The port with this id, or `None` if the partition has none.
    pub fn port(&self, id: u32) -> Option<Port>
        ensures { result ≡ map.get self.now.ports.rows id }
    {
        self.parts.ports.find(id)
    }

    /// The port at a place, with its id, or `None` if there are no more.
    ///
    /// The ports are in order of rising id, from place 0 on.
    pub fn port_at(&self, place: u32) -> Option<(u32, Port)>
        ensures { result ≡ slice_get (map.entries self.now.ports.rows) place }
    {
        self.parts.ports.at(place)
    }

    /// The number of the partition's ports.
    pub fn port_count(&self) -> u32
        ensures { result ≡ map.len self.now.ports.rows }
    {
        self.parts.ports.count()
    }

    /// Makes room for one more port. Existing room always suffices.
    ///
    /// Returns `Err` if there is no memory for it, or if the partition has 2^32 - 1 ports. The partition is
    /// then as it was.
    pub fn reserve_port(&mut self) -> Result<(), AllocError>
    where
        A: Clone,
        ensures ok { OnOk result (1 ≤ self.new.ports.room) }
        ensures enough { 1 ≤ self.old.ports.room → IsOk result }
        ensures unchanged { OnErr result (self.new ≡ self.old) }

        // In either case.
        ensures ports { self.new.ports.rows ≡ self.old.ports.rows }
        ensures room { self.old.ports.room ≤ self.new.ports.room }
        ensures rest { self.new ≡ record self.old { ports = self.new.ports } }
    {
        self.parts.ports.reserve_one()
    }

    /// Adds a port with an id that is free. There must be room for it.
    pub fn add_port(&mut self, id: u32, port: Port)
        requires room { 1 ≤ self.old.ports.room }
        requires free { map.contains_key self.old.ports.rows id ≡ false }
        ensures ports { self.new.ports.rows ≡ map.insert self.old.ports.rows id port }
        ensures room { self.old.ports.room ≤ self.new.ports.room + 1 }
        ensures rest { self.new ≡ record self.old { ports = self.new.ports } }
    {
        self.parts.ports.insert(id, port);
    }

    /// Removes the port with this id, and returns it.
    pub fn remove_port(&mut self, id: u32) -> Option<Port>
        ensures port { result ≡ map.get self.old.ports.rows id }
        ensures ports { self.new.ports.rows ≡ map.remove self.old.ports.rows id }
        ensures room { self.old.ports.room ≤ self.new.ports.room }
        ensures rest { self.new ≡ record self.old { ports = self.new.ports } }
    {
        self.parts.ports.remove(id)
    }
}

// The connections. Each call requires and promises what the connection table's call does.
impl<A: Allocator> Partition<A> {
    /// The connection with this id, or `None` if the partition has none.
    pub fn conn(&self, id: u32) -> Option<Conn>
        ensures { result ≡ map.get self.now.conns.rows id }
    {
        self.parts.conns.find(id)
    }

    /// The connection at a place, with its id, or `None` if there are no more.
    ///
    /// The connections are in order of rising id, from place 0 on.
    pub fn conn_at(&self, place: u32) -> Option<(u32, Conn)>
        ensures { result ≡ slice_get (map.entries self.now.conns.rows) place }
    {
        self.parts.conns.at(place)
    }

    /// The number of the partition's connections.
    pub fn conn_count(&self) -> u32
        ensures { result ≡ map.len self.now.conns.rows }
    {
        self.parts.conns.count()
    }

    /// Makes room for one more connection. Existing room always suffices.
    ///
    /// Returns `Err` if there is no memory for it, or if the partition has 2^32 - 1 connections. The
    /// partition is then as it was.
    pub fn reserve_conn(&mut self) -> Result<(), AllocError>
    where
        A: Clone,
        ensures ok { OnOk result (1 ≤ self.new.conns.room) }
        ensures enough { 1 ≤ self.old.conns.room → IsOk result }
        ensures unchanged { OnErr result (self.new ≡ self.old) }

        // In either case.
        ensures conns { self.new.conns.rows ≡ self.old.conns.rows }
        ensures room { self.old.conns.room ≤ self.new.conns.room }
        ensures rest { self.new ≡ record self.old { conns = self.new.conns } }
    {
        self.parts.conns.reserve_one()
    }

    /// Adds a connection with an id that is free. There must be room for it.
    pub fn add_conn(&mut self, id: u32, conn: Conn)
        requires room { 1 ≤ self.old.conns.room }
        requires free { map.contains_key self.old.conns.rows id ≡ false }
        ensures conns { self.new.conns.rows ≡ map.insert self.old.conns.rows id conn }
        ensures room { self.old.conns.room ≤ self.new.conns.room + 1 }
        ensures rest { self.new ≡ record self.old { conns = self.new.conns } }
    {
        self.parts.conns.insert(id, conn);
    }

    /// Removes the connection with this id, and returns it.
    pub fn remove_conn(&mut self, id: u32) -> Option<Conn>
        ensures conn { result ≡ map.get self.old.conns.rows id }
        ensures conns { self.new.conns.rows ≡ map.remove self.old.conns.rows id }
        ensures room { self.old.conns.room ≤ self.new.conns.room }
        ensures rest { self.new ≡ record self.old { conns = self.new.conns } }
    {
        self.parts.conns.remove(id)
    }
}
