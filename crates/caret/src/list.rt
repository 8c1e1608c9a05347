// The list of row numbers.
ghost use Rattle.std.specs.Prelude.{◌≡◌, suc, ◌<◌, set};
ghost use Rattle.definitions.specs.Layout.{TWO_TO_64};

// How many are listed. Those that there is room for stand at the front of the list.
#[derive(Drop)]
pub struct Listed<'a> {
    pub list: &'a mut [u32],
    pub count: usize,
}

impl Listed<'_> {
    pub fn push(&mut self, number: u32)
        requires { suc self.old.count < TWO_TO_64 }
        ensures same_list { self.new.list.ghost_name ≡ self.old.list.ghost_name }
        ensures count { self.new.count ≡ suc self.old.count }
        ensures list_after { self.new.list.now ≡ set self.old.list.now self.old.count number }
    {
        if self.count < self.list.len() {
            self.list[self.count] = number;
        }
        self.count += 1;
    }
}
