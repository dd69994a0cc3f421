// From src/mmio/dragonball.rs:
//
// Copyright (C) 2019 Alibaba Cloud. All rights reserved.
// SPDX-License-Identifier: Apache-2.0 or BSD-3-Clause

//! The staged message of dragonball.rs. Each word has three functions: `with_` takes a message and returns another, `set_`
//! is lent a message and changes it there, and `staged_` returns what `set_` makes of its own copy, for callers that pass
//! messages by value.

#![tactic(auto)]

ghost use Rattle.std.specs.Prelude.{◌≡◌};
ghost use Rattle.msi.specs.Stage.{no_message, with_address_high, with_address_low, with_data, with_index_select};

/// MSI interrupts. The default is a message of zeros.
#[derive(Clone, Copy, PartialEq, Eq, Debug, Default)]
#[repr(C)]
pub struct Msi {
    pub index_select: u32,
    pub address_low: u32,
    pub address_high: u32,
    pub data: u32,
}

impl Msi {
    /// Sets index select.
    pub fn with_index_select(mut self, v: u32) -> Self
        ensures { result ≡ with_index_select self v }
    {
        self.index_select = v;
        self
    }

    /// Sets address low.
    pub fn with_address_low(mut self, v: u32) -> Self
        ensures { result ≡ with_address_low self v }
    {
        self.address_low = v;
        self
    }

    /// Sets address high.
    pub fn with_address_high(mut self, v: u32) -> Self
        ensures { result ≡ with_address_high self v }
    {
        self.address_high = v;
        self
    }

    /// Sets msi data.
    pub fn with_data(mut self, v: u32) -> Self
        ensures { result ≡ with_data self v }
    {
        self.data = v;
        self
    }

    /// Sets index select, in the message that is lent.
    pub fn set_index_select(&mut self, v: u32)
        ensures { self.new ≡ with_index_select self.old v }
    {
        *self = (*self).with_index_select(v);
    }

    /// Sets address low, in the message that is lent.
    pub fn set_address_low(&mut self, v: u32)
        ensures { self.new ≡ with_address_low self.old v }
    {
        *self = (*self).with_address_low(v);
    }

    /// Sets address high, in the message that is lent.
    pub fn set_address_high(&mut self, v: u32)
        ensures { self.new ≡ with_address_high self.old v }
    {
        *self = (*self).with_address_high(v);
    }

    /// Sets msi data, in the message that is lent.
    pub fn set_data(&mut self, v: u32)
        ensures { self.new ≡ with_data self.old v }
    {
        *self = (*self).with_data(v);
    }

    /// The message after `set_index_select`.
    pub fn staged_index_select(self, v: u32) -> Self
        ensures staged { result ≡ with_index_select self v }
    {
        let mut staged = self;
        staged.set_index_select(v);
        staged
    }

    /// The message after `set_address_low`.
    pub fn staged_address_low(self, v: u32) -> Self
        ensures staged { result ≡ with_address_low self v }
    {
        let mut staged = self;
        staged.set_address_low(v);
        staged
    }

    /// The message after `set_address_high`.
    pub fn staged_address_high(self, v: u32) -> Self
        ensures staged { result ≡ with_address_high self v }
    {
        let mut staged = self;
        staged.set_address_high(v);
        staged
    }

    /// The message after `set_data`.
    pub fn staged_data(self, v: u32) -> Self
        ensures staged { result ≡ with_data self v }
    {
        let mut staged = self;
        staged.set_data(v);
        staged
    }
}
