// What the definitions promise.
ghost use Rattle.std.specs.Prelude.{◌≡◌, List};
ghost use Rattle.jmap_core.specs.CreatedIds.{Ids};
ghost use Rattle.set_arguments.specs.Arguments.{SetAsked};
ghost use Rattle.set_arguments.specs.declared.set_method.SetMethod.{SetMethod};
ghost use Rattle.set_order.specs.Ordered.{Item, ItemsOf};

/// The items of a call have one order.
pub fn items_have_one_order()
    ensures { (m : SetMethod) (created : Ids) (a : SetAsked) (items others : List Item) → ItemsOf m created a items → ItemsOf m created a others
        → items ≡ others }
{}
