// What holds of images and tables, each law on the contract of a call.
ghost use Rattle.table.specs.Laws.{ImageOpensAsItsTable, OneImageForEachTable};

// The image of a table opens as that table.
pub fn image_opens_as_its_table()
    ensures { ImageOpensAsItsTable }
{}

// Two images that open as the same table are equal: each is that table's image.
pub fn one_image_for_each_table()
    ensures { OneImageForEachTable }
{}
