//! The rows of instances and entities.

ghost use Rattle.std.specs.Prelude.{◌≡◌, Some, None, IfOk, OnOk, IfSome, IfNone, option_map};
ghost use Rattle.dura_value.specs.Views.{id_of, message_of};
ghost use Rattle.flow_messages.specs.Views.{entity_of};
ghost use Rattle.dura_value.specs.ById.{at_id};
ghost use Rattle.part_rows.specs.Views.{row_of};
ghost use Rattle.part_rows.specs.Open.{lets_in, last_at, oldest_open, IsOpen, NoneOpen};
ghost use Rattle.part_rows.specs.Parts.{part_of};

use crate::parts::PartRows;
use crate::rows::Row;
use dura_value::{Id, Message, with};
use flow_messages::{Entity, copy_id};
use std::alloc::{AllocError, Global};

impl PartRows {
    /// Whether a receiver takes what a sender sends: an entity that is held takes only what its holder sends.
    pub fn lets_in(&self, from: &Id, to: &Id) -> bool
        ensures { result ≡ lets_in (part_of self.now).entities (id_of from.now) (id_of to.now) }
    {
        match to {
            Id::Entity(_, _) => match self.entities.get(to) {
                Some(entity) => entity.takes(from),
                None => true,
            },
            Id::Flow(_, _) | Id::Client(_) => true,
        }
    }

    /// The last stamp of an instance or an entity, and 0 where it isn't there.
    pub fn last_of(&self, id: &Id) -> u64
        ensures { result ≡ last_at (part_of self.now) (id_of id.now) }
    {
        match id {
            Id::Flow(_, _) => match self.instances.get(id) {
                Some(row) => row.stamp,
                None => 0,
            },
            Id::Entity(_, _) => match self.entities.get(id) {
                Some(entity) => entity.last,
                None => 0,
            },
            Id::Client(_) => 0,
        }
    }

    /// The message that has waited longest of those that their receivers take.
    #[tactic(auto, using(crate::proofs::Opening::passed_over, crate::proofs::Opening::found_here, crate::proofs::Opening::found_nowhere, crate::proofs::Opening::is_there, crate::proofs::Opening::oldest_here, crate::proofs::Opening::oldest_nowhere))]
    pub fn first_open(&self) -> Option<&Message>
        ensures oldest { option_map (λ m. message_of m.now) result
            ≡ oldest_open (part_of self.now) }
        ensures some { IfSome result (λ m. IsOpen (part_of self.now) (id_of m.now.from)
            (id_of m.now.to)) }
        ensures none { IfNone result (NoneOpen (part_of self.now)) }
    {
        let length = self.queue.len();
        let mut place = 0;
        while place < length {
            let message = self.queue.at(place)?;
            if self.lets_in(&message.from, &message.to) {
                return Some(message);
            }
            place += 1;
        }
        None
    }

    /// An instance is kept.
    pub fn put_instance(&mut self, alloc: Global, id: &Id, row: Row) -> Result<(), AllocError>
        ensures put { OnOk result (part_of self.new
            ≡ record (part_of self.old)
            { instances = at_id (part_of self.old).instances (id_of id.now) (Some (row_of row)) }) }
        ensures timers { self.new.timers ≡ self.old.timers }
        ensures partitions { self.new.partitions ≡ self.old.partitions }
    {
        let id = copy_id(id)?;
        self.instances.put(alloc, id, row)?;
        Ok(())
    }

    /// An entity is kept.
    pub fn put_entity(&mut self, alloc: Global, id: &Id, entity: Entity) -> Result<(), AllocError>
        ensures put { OnOk result (part_of self.new
            ≡ record (part_of self.old) {
              entities = at_id (part_of self.old).entities (id_of id.now) (Some (entity_of entity));
            }) }
        ensures timers { self.new.timers ≡ self.old.timers }
        ensures partitions { self.new.partitions ≡ self.old.partitions }
    {
        let (id, entity) = with(copy_id(id), entity)?;
        self.entities.put(alloc, id, entity)?;
        Ok(())
    }

    /// An instance is taken out of its row.
    pub fn take_instance(&mut self, alloc: Global, id: &Id) -> Result<Option<Row>, AllocError>
        ensures row { IfOk result (λ row. option_map row_of row
            ≡ (part_of self.old).instances (id_of id.now)) }
        ensures taken { OnOk result (part_of self.new ≡ record (part_of self.old)
            { instances = at_id (part_of self.old).instances (id_of id.now) None }) }
        ensures timers { self.new.timers ≡ self.old.timers }
        ensures partitions { self.new.partitions ≡ self.old.partitions }
    {
        let row = self.instances.take(alloc, id)?;
        Ok(row)
    }

    /// An entity is taken out of its row.
    pub fn take_entity(&mut self, alloc: Global, id: &Id) -> Result<Option<Entity>, AllocError>
        ensures entity { IfOk result (λ entity. option_map entity_of entity
            ≡ (part_of self.old).entities (id_of id.now)) }
        ensures taken { OnOk result (part_of self.new ≡ record (part_of self.old)
            { entities = at_id (part_of self.old).entities (id_of id.now) None }) }
        ensures timers { self.new.timers ≡ self.old.timers }
        ensures partitions { self.new.partitions ≡ self.old.partitions }
    {
        let entity = self.entities.take(alloc, id)?;
        Ok(entity)
    }

    /// An instance is kept in the place of its row, or no longer where there is none.
    pub fn replace_instance(
        &mut self,
        alloc: Global,
        id: &Id,
        row: Option<Row>,
    ) -> Result<(), AllocError>
        ensures put { OnOk result (part_of self.new
            ≡ record (part_of self.old) {
              instances = at_id (part_of self.old).instances (id_of id.now) (option_map row_of row);
            }) }
        ensures timers { self.new.timers ≡ self.old.timers }
        ensures partitions { self.new.partitions ≡ self.old.partitions }
    {
        match row {
            Some(row) => self.put_instance(alloc, id, row),
            None => {
                drop(self.take_instance(alloc, id)?);
                Ok(())
            }
        }
    }
}
