//! The blocks that were given: who holds each, and what is shown of that.
ghost use Rattle.std.specs.Prelude.{◌≡◌, IfOk};
ghost use Rattle.reg_core.specs.Holding.{holder_in, holding_row, listed_row, masked};

use crate::request::{Given, State};
use crate::text::{Account, Text};
use reg_blocks::block::Block;
use std::alloc::AllocError;

/// Who holds a block: a holding without its block.
#[derive(Clone, Drop)]
pub struct Holder {
    pub account: Account,
    pub organization: Text,
    pub address: Text,
    /// Whether the public is shown neither organization nor address.
    pub private: bool,
}

/// A block that was given, with its holder.
#[derive(Clone, Drop)]
pub struct Holding {
    pub block: Block,
    pub holder: Account,
    pub organization: Text,
    pub address: Text,
    /// Whether the public is shown neither organization nor address.
    pub private: bool,
}

/// A block that was given, as the public sees it: organization and address are there, but where
/// the holder is private.
#[derive(Clone, Drop)]
pub struct Listed {
    pub block: Block,
    pub organization: Option<Text>,
    pub address: Option<Text>,
}

impl Holder {
    /// An equal holder.
    pub fn copy(&self) -> Result<Self, AllocError>
        ensures { IfOk result (λ h. h ≡ self.now) }
    {
        self.clone()
    }

    /// This holder's block, with its holder.
    pub fn holding(&self, block: Block) -> Result<Holding, AllocError>
        ensures { IfOk result (λ h. h ≡ holding_row block self.now) }
    {
        Ok(Holding {
            block,
            holder: self.account,
            organization: self.organization.copy()?,
            address: self.address.copy()?,
            private: self.private,
        })
    }

    /// This holder's block, as the public sees it.
    pub fn listed(&self, block: Block) -> Result<Listed, AllocError>
        ensures { IfOk result (λ row. row ≡ listed_row block (masked self.now)) }
    {
        if self.private {
            return Ok(Listed {
                block,
                organization: None,
                address: None,
            });
        }
        let organization = self.organization.copy()?;
        let address = self.address.copy()?;
        Ok(Listed {
            block,
            organization: Some(organization),
            address: Some(address),
        })
    }
}

impl Holding {
    ghost use Rattle.reg_core.specs.declared.request.Given.TheVariants as given;
    ghost use Rattle.reg_core.specs.declared.request.State.TheVariants.{Approved};

    /// An equal holding.
    pub fn copy(&self) -> Result<Self, AllocError>
        ensures { IfOk result (λ h. h ≡ self.now) }
    {
        self.clone()
    }

    /// The holding without its block.
    pub fn into_holder(self) -> Holder
        ensures { result ≡ holder_in self }
    {
        Holder {
            account: self.holder,
            organization: self.organization,
            address: self.address,
            private: self.private,
        }
    }

    /// The state of a request that was given this block.
    pub fn approval(&self) -> State
        ensures { result ≡ Approved (given.Block self.now.block) }
    {
        let block = self.block;
        State::Approved(Given::Block(block))
    }
}

impl Listed {
    /// An equal row.
    pub fn copy(&self) -> Result<Self, AllocError>
        ensures { IfOk result (λ row. row ≡ self.now) }
    {
        self.clone()
    }
}
