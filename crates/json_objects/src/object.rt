//! An object that is put together.

ghost use Rattle.std.specs.Prelude.{◌≡◌, OnErr, OnOk, option_map};
ghost use Rattle.serde_json.specs.Data.{boolean, member, no_members, number, object, string, unsigned};
ghost use Rattle.serde_json.specs.View.{view};
ghost use Rattle.json_objects.specs.Members.{IsBefore, member_if, members_in};

use serde_json::{Map, Value};
use std::alloc::{AllocError, Global};

/// An object that is put together from its last member to its first, in the order of the bytes of their keys. Contracts
/// see its members by `members_in`.
///
/// Where memory runs out the object stays as it was.
#[derive(Drop)]
pub struct Object {
    members: Map<String, Value>,
}

impl Object {
    /// An object with no members. It takes no memory.
    pub fn new(alloc: Global) -> Object
        ensures { members_in result ≡ no_members }
    {
        Object {
            members: Map::new(alloc),
        }
    }

    /// Puts a value before the members that are there.
    #[tactic(auto, using(crate::proofs::Putting::put_before))]
    pub fn put_value(&mut self, alloc: Global, key: &str, value: Value) -> Result<(), AllocError>
        requires { IsBefore key.now (members_in self.old) }
        ensures put { OnOk result (members_in self.new ≡ member key.now (view value) (members_in self.old)) }
        ensures kept { OnErr result (members_in self.new ≡ members_in self.old) }
    {
        serde_json::put(&mut self.members, alloc, key, value)
    }

    /// Puts a text before the members that are there.
    pub fn put_text(&mut self, alloc: Global, key: &str, text: &str) -> Result<(), AllocError>
        requires { IsBefore key.now (members_in self.old) }
        ensures put { OnOk result (members_in self.new ≡ member key.now (string text.now) (members_in self.old)) }
        ensures kept { OnErr result (members_in self.new ≡ members_in self.old) }
    {
        let value = Value::try_from_str(alloc, text)?;
        self.put_value(alloc, key, value)
    }

    /// Puts a number before the members that are there.
    pub fn put_number(&mut self, alloc: Global, key: &str, n: u64) -> Result<(), AllocError>
        requires { IsBefore key.now (members_in self.old) }
        ensures put { OnOk result
            (members_in self.new ≡ member key.now (number (unsigned n)) (members_in self.old)) }
        ensures kept { OnErr result (members_in self.new ≡ members_in self.old) }
    {
        self.put_value(alloc, key, Value::from(n))
    }

    /// Puts true or false before the members that are there.
    pub fn put_flag(&mut self, alloc: Global, key: &str, flag: bool) -> Result<(), AllocError>
        requires { IsBefore key.now (members_in self.old) }
        ensures put { OnOk result (members_in self.new ≡ member key.now (boolean flag) (members_in self.old)) }
        ensures kept { OnErr result (members_in self.new ≡ members_in self.old) }
    {
        self.put_value(alloc, key, Value::Bool(flag))
    }

    /// Puts a text, if there is one, before the members that are there.
    pub fn put_text_if(
        &mut self,
        alloc: Global,
        key: &str,
        text: Option<&str>,
    ) -> Result<(), AllocError>
        requires { IsBefore key.now (members_in self.old) }
        ensures put { OnOk result (members_in self.new
            ≡ member_if key.now (option_map (λ t. string t.now) text.entry) (members_in self.old)) }
        ensures kept { OnErr result (members_in self.new ≡ members_in self.old) }
    {
        match text {
            Some(text) => self.put_text(alloc, key, text),
            None => Ok(()),
        }
    }

    /// Puts a number, if there is one, before the members that are there.
    pub fn put_number_if(
        &mut self,
        alloc: Global,
        key: &str,
        n: Option<u64>,
    ) -> Result<(), AllocError>
        requires { IsBefore key.now (members_in self.old) }
        ensures put { OnOk result (members_in self.new
            ≡ member_if key.now (option_map (λ m. number (unsigned m)) n) (members_in self.old)) }
        ensures kept { OnErr result (members_in self.new ≡ members_in self.old) }
    {
        match n {
            Some(n) => self.put_number(alloc, key, n),
            None => Ok(()),
        }
    }

    /// The object as a value.
    pub fn into_value(self) -> Value
        ensures { view result ≡ object (members_in self) }
    {
        Value::Object(self.members)
    }
}
