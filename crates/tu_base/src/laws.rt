ghost use Rattle.tu_base.specs.Laws.{HeapIsCounted};

/// What collections take of the heap is the sum of their peaks, by the words of their elements.
pub fn heap_is_counted()
    ensures { HeapIsCounted }
{}
